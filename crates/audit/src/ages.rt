// The ages of records, in rising order: whether they are 0 up to the count less one, whether they differ, and how many are older than one of them.
ghost use Rattle.std.specs.Prelude.{◌≡◌, List, ℕ, ◌≤◌, ◌<◌, length, get_or, take};
ghost use Rattle.intersection_set.specs.Store.{Rec};
ghost use Rattle.resume.specs.Image.{rank};
ghost use Rattle.resume.specs.AgesAside.{age_at};
ghost use Rattle.resume.specs.Check.{ages_all, ages_differ};
ghost use Rattle.audit.specs.Sorted.{Sorted};

// Writes the ages in rising order to the start of a table.
pub fn sort_ages<A: Fn(usize) -> u32>(table: &mut [u32], count: usize, age: A)
    ghost d: { List Rec }
    requires room { (count ≤ length table.old) × (length d ≡ count) }
    requires can { (k : ℕ) → k < count → A.pre age k }
    requires gives { (k : ℕ) (a : _) → k < count → A.post age k a → a ≡ age_at d k }
    ensures size { length table.new ≡ length table.old }
    ensures sorted { Sorted d (take count table.new) }
{
    let part = &mut table[..count];
    for (k, place) in part.iter_mut().enumerate() {
        *place = age(k);
    }
    part.sort_unstable();
}

// They are 0 up to the count less one.
pub fn are_all(sorted: &[u32]) -> bool
    ensures { (d : List Rec) → Sorted d sorted.now → result ≡ ages_all d }
{
    (0..sorted.len()).all(|i| sorted[i] as usize == i)
}

// No two are alike.
pub fn differ(sorted: &[u32]) -> bool
    ensures { (d : List Rec) → Sorted d sorted.now → result ≡ ages_differ d }
{
    (0..sorted.len().saturating_sub(1)).all(|i| sorted[i] < sorted[i + 1])
}

// How many are less.
pub fn rank(sorted: &[u32], age: u32) -> u32
    requires { ((d : List Rec) × Sorted d sorted.now) × (length sorted.now < 4294967296) }
    ensures { (d : List Rec) → Sorted d sorted.now → result ≡ rank d age }
{
    sorted.partition_point(|a| *a < age) as u32
}
