//! A run in one line of numbers: the weights of the rows and the machines, each list after its length, the blocks, the
//! ceiling, and for each call its tag and its number.
use anyhow::{Context, anyhow};
use search::call::Call;
use std::alloc::Global;
use std::num::TryFromIntError;
use std::slice::Iter;

/// A run as a line has it.
// As it is: starts and slowness are two lists, since the machines are made of two.
#[derive(Drop)]
pub struct Script {
    pub weights: Vec<u32>,
    pub starts: Vec<u32>,
    pub slowness: Vec<u8>,
    pub blocks: u32,
    pub ceiling: u64,
    pub calls: Vec<Call>,
}

/// The next number, as a number of a smaller type.
fn small<N: TryFrom<u64, Error = TryFromIntError>>(
    numbers: &mut Iter<'_, u64>,
) -> anyhow::Result<N> {
    let number = numbers.next().context("a number is missing")?;
    Ok(N::try_from(*number)?)
}

/// A list of items, after its length.
fn list<T: Drop, F: Fn(&mut Iter<'_, u64>) -> anyhow::Result<T>>(
    heap: Global,
    numbers: &mut Iter<'_, u64>,
    item: F,
) -> anyhow::Result<Vec<T>>
    requires { F.IsAlwaysCallable item }
{
    let mut items = Vec::new(heap);
    // As it is: `map` and `try_collect` got no proof that the item may be read each time.
    for _ in 0..small::<u32>(numbers)? {
        items.push(item(numbers)?)?;
    }
    Ok(items)
}

/// How long each machine takes to start, and how slow each is, after their number.
fn machines(heap: Global, numbers: &mut Iter<'_, u64>) -> anyhow::Result<(Vec<u32>, Vec<u8>)> {
    let mut starts = Vec::new(heap);
    let mut slowness = Vec::new(heap);
    // As it is: a list of pairs, taken apart by `unzip`, takes a third more memory for a line of a million machines.
    for _ in 0..small::<u32>(numbers)? {
        starts.push(small(numbers)?)?;
        slowness.push(small(numbers)?)?;
    }
    Ok((starts, slowness))
}

/// A call as a line has it: its tag, 5 for an advance, 6 for a try, 7 for a take and 8 for a tell, and its number.
struct Written<'a>(&'a [u64]);

impl TryFrom<Written<'_>> for Call {
    type Error = anyhow::Error;

    fn try_from(written: Written<'_>) -> anyhow::Result<Call> {
        let Written(numbers) = written;
        match numbers {
            [5, trials] => Ok(Call::Advance(u32::try_from(*trials)?)),
            [6, target] => Ok(Call::Try(*target)),
            [7, places] => Ok(Call::Take(u32::try_from(*places)?)),
            [8, _] => Ok(Call::Tell),
            [_, _] => Err(anyhow!("an unknown call")),
            _ => Err(anyhow!("a call has no number")),
        }
    }
}

impl Script {
    pub fn read(heap: Global, line: &str) -> anyhow::Result<Script> {
        let numbers: Vec<u64> = line
            .split_whitespace()
            .map(|word| -> anyhow::Result<u64> { Ok(word.parse::<u64>()?) })
            .try_collect(heap)?;
        let mut numbers = numbers.iter();
        let weights = list(heap, &mut numbers, small)?;
        let (starts, slowness) = machines(heap, &mut numbers)?;
        let blocks = small(&mut numbers)?;
        let ceiling = *numbers.next().context("the ceiling is missing")?;
        let calls = numbers
            .as_slice()
            .chunks(2)
            .map(|written| Call::try_from(Written(written)))
            .try_collect(heap)?;
        Ok(Script {
            weights,
            starts,
            slowness,
            blocks,
            ceiling,
            calls,
        })
    }
}
