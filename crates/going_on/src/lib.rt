// From picks and an image to what is printed of the run that goes on from it.
#![tactic(auto)]

ghost use Rattle.std.specs.Prelude.{◌≡◌, true, false, ◌+◌, ◌*◌, ◌≤◌, min, length, IfOk, IfErr};
ghost use Rattle.refusal.specs.Number.{number_of};
ghost use Rattle.image.specs.Reading.{image_fault, point_count};
ghost use Rattle.job.specs.Buffers.{Put};
ghost use Rattle.going_on.specs.Printed.{pick_count, has_picks, text_on, printed_on};

use image::image_file::ImageFile;
use job::reader::fill;
use job::report::{Report, put_report};
use job::word::word_at;
use refusal::Refusal;
use take_up::take_up;
use tour::tell;
use two_opt::workspace::Workspace;

// How many picks stand before the image: the first word. An input that is too short for them is refused as an image that is.
fn picks_before(input: &[u8]) -> Result<usize, Refusal>
    ensures ok { IfOk result (λ count. (has_picks input.now ≡ true) × (count ≡ pick_count input.now) × (4 + 4 * count ≤ length input.now)) }
    ensures err { IfErr result (λ r. (has_picks input.now ≡ false) × (number_of r ≡ 20)) }
{
    if input.len() < 4 {
        return Err(Refusal::ImageFile);
    }
    let count = word_at(input, 0) as usize;
    if input.len() < 4 + 4 * count {
        return Err(Refusal::ImageFile);
    }
    Ok(count)
}

// How many points the image has that can be told; none where it is no image.
fn points_told(image: &[u8]) -> usize
    ensures few { result ≤ 256 }
    ensures all { image_fault image.now ≡ 0 → result ≡ min (point_count image.now) 256 }
{
    match ImageFile::new(image) {
        Ok(file) => file.header.points.min(256),
        Err(_) => 0,
    }
}

// Writes the text of the answer to the image and the picks. The buffers have room for 256 points: 256×255 places for records, 4×511 numbers for the tree. They
// are arrays, since a library uses no heap; with those of `take_up` they take about 2.3 MB of the stack.
fn go_on_from(image: &[u8], picks: &[u32], out: &mut [u8]) -> usize
    requires { 11368 ≤ length out.old }
    ensures put { Put out.old 0 (text_on image.now picks.now) result out.new }
    ensures within { result ≤ length out.new }
{
    let mut x = [0i32; 256];
    let mut y = [0i32; 256];
    let mut ring = [0u16; 256];
    let mut index = [0u16; 256];
    let mut heads = [0u16; 65280];
    let mut ends = [0u64; 65280];
    let mut links = [0u64; 65280];
    let mut ages = [0u32; 65280];
    let mut dense = [0u16; 65280];
    let mut reverse = [0u16; 65280];
    let mut free = [0u16; 65280];
    let mut tangles = [0u16; 65280];
    let mut tree = [0i32; 2044];
    let mut work = Workspace {
        ring: &mut ring,
        index: &mut index,
        heads: &mut heads,
        ends: &mut ends,
        links: &mut links,
        ages: &mut ages,
        dense: &mut dense,
        reverse: &mut reverse,
        free: &mut free,
        tangles: &mut tangles,
        tree: &mut tree,
    };
    let done = take_up(image, picks, &mut x, &mut y, &mut work);
    let Workspace { ring, tangles, .. } = work;
    let told = &ring[..points_told(image)];
    tell(done, &x, &y, told, tangles, out)
}

// Writes what is printed of a run that goes on to the start of `out`, and answers its length. The input is a word P, P picks and an image; `picks` is room for
// its picks. 11,368 bytes hold the longest text, that of a loop: 104 for the first line, 44 for each of 256 points.
pub fn go_on(input: &[u8], picks: &mut [u32], out: &mut [u8]) -> usize
    requires { (length input.now ≤ 4 + 4 * length picks.old) × (11368 ≤ length out.old) }
    ensures put { Put out.old 0 (printed_on input.now) result out.new }
    ensures within { result ≤ length out.new }
{
    match picks_before(input) {
        Ok(count) => {
            fill(picks, count, |i| word_at(input, 4 + 4 * i));
            go_on_from(&input[4 + 4 * count..], &picks[..count], out)
        }
        Err(refusal) => put_report(Report::Refused(refusal), out),
    }
}
