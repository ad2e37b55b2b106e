// The program's own arguments, as one line.
ghost use Rattle.std.specs.Prelude.{◌≤◌, length, IfOk, IfSome};
ghost use Rattle.std.specs.Counts.{IsPrefixLen};

use std::env::{Env, FillError};

// The argument for which there is no room, counted from 1.
#[derive(Clone, Copy, Debug, PartialEq, Eq)]
pub struct TooLong(pub usize);

// One argument, ended by a zero, laid behind what the line holds: where it ends, and nothing where there is no such argument.
fn append(
    rt: &impl Env,
    line: &mut [u8],
    end: usize,
    index: usize,
) -> Result<Option<usize>, TooLong>
    requires { end ≤ length line.old }
    ensures { IfOk result (λ found. IfSome found (λ behind. behind ≤ length line.new)) }
{
    let mut word = [0u8; 65536];
    let count = match rt.arg(index, &mut word) {
        Ok(count) => count,
        Err(FillError::NotPresent) => return Ok(None),
        Err(FillError::TooLong) => return Err(TooLong(index)),
    };
    if line.len() - end <= count {
        return Err(TooLong(index));
    }
    let after = end + count;
    line[end..after].copy_from_slice(&word[..count]);
    line[after] = 0;
    Ok(Some(after + 1))
}

// The arguments behind the program's own name, a line of words, each ended by a zero: how long it is.
pub fn gather(rt: &impl Env, line: &mut [u8]) -> Result<usize, TooLong>
    ensures { IfOk result (λ length. IsPrefixLen length line.new) }
{
    let mut end: usize = 0;
    for index in 1..usize::MAX {
        match append(rt, line, end, index)? {
            None => return Ok(end),
            Some(after) => end = after,
        }
    }
    Ok(end)
}
