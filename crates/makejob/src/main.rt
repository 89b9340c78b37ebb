// Makes a job file of a text: standard input to standard output.
//
// A line is `x y`, a point in micrometres; `pick N`, one pick; `picks SEED COUNT`, all picks, drawn from a seed; or blank. `#` starts a
// comment. What does not fit is told on standard error with the line's number, and no job is written. Input that cannot be read ends there; what cannot
// be written is passed over.
#![tactic(auto)]

mod board;
mod fault;
mod generator;

use board::{Board, read_board};
use job::encoder::write_job;

// Writes the job of a board.
fn write_board(board: &Board) {
    let mut out = [0; 16384];
    let n = write_job(&board.x, &board.y, &board.picks, &mut out).unwrap();
    io::write_all(1, &out[..n]);
}

fn main(rt: HostRuntime) {
    // One byte more than the longest text, so that a longer one is seen.
    let mut text = [0; 262145];
    let n = io::read_full(0, &mut text);
    match read_board(&text[..n]) {
        Ok(board) => write_board(&board),
        Err(fault) => {
            let _ = eprintln!(rt; "makejob: {fault}");
        }
    }
}
