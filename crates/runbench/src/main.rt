// runbench FILE KIND REPEATS: runs a sheet file many times over and prints a checksum of the outputs.
#![tactic(auto)]

use anyhow::anyhow;
use ring::{Pair, Ring, Word};
use runner::{Bench, run};
use sheet::{Sheet, Step};
use sheet_file::read;
use std::alloc::{AllocError, Global};
use std::{env, fs};

// A kind that is measured: its measures are made from numbers, and its values come back as one.
trait Sample: Ring {
    fn sample(value: u32, rate: u32) -> Self;

    fn number(self) -> u32;
}

impl Sample for Word {
    fn sample(value: u32, _rate: u32) -> Word {
        Word::from(value)
    }

    fn number(self) -> u32 {
        u32::from(self)
    }
}

impl Sample for Pair<Word> {
    fn sample(value: u32, rate: u32) -> Pair<Word> {
        Pair {
            value: Word::from(value),
            rate: Word::from(rate),
        }
    }

    fn number(self) -> u32 {
        let rates = self.rate.value.wrapping_mul(3);
        self.value.value.wrapping_add(rates)
    }
}

// The numbers of the outputs, each times its place from 1 on, added up modulo 2^32.
fn checksum<R: Sample>(outputs: &[R]) -> u32 {
    let (sum, _) = outputs.iter().fold((0u32, 1u32), |(sum, place), output| {
        let sum = sum.wrapping_add(place.wrapping_mul(output.number()));
        (sum, place.wrapping_add(1))
    });
    sum
}

// One run with another first measure, of the rate 1: the checksum of its outputs.
fn run_at<R: Sample>(
    sheet: &Sheet,
    first: u32,
    measures: &mut [R],
    cells: &mut [R],
    outputs: &mut [R],
) -> u32 {
    if let Some(measure) = measures.first_mut() {
        *measure = R::sample(first, 1);
    }
    let mut bench = Bench::over(cells);
    let _ = run(sheet, measures, &mut bench, outputs);
    checksum(outputs)
}

// So many runs at the measures 2 to 9, but for the first, which goes up from 2: the sum of their
// checksums.
fn repeat<R: Sample>(heap: Global, sheet: &Sheet, repeats: u32) -> Result<u32, AllocError> {
    let mut measures: Vec<R> = (2..10).map(|value| R::sample(value, 0)).collect(heap)?;
    let mut cells = vec![in heap; R::zero(); sheet.steps().len()]?;
    let mut outputs = vec![in heap; R::zero(); 16]?;
    let mut sum = 0u32;
    for k in 0..repeats {
        let first = k.wrapping_add(2);
        let sum_at = run_at(sheet, first, &mut measures, &mut cells, &mut outputs);
        sum = sum.wrapping_add(sum_at);
    }
    Ok(sum)
}

fn read_sheet(heap: Global, file: &[u8]) -> anyhow::Result<Sheet> {
    let buffer = vec![in heap; Step::default(); 2000]?;
    read(file, buffer).map_err(|_| anyhow!("the file is refused"))
}

fn runbench(rt: &HostRuntime, words: &[String]) -> anyhow::Result<()> {
    let [file, kind, repeats] = words else {
        return Err(anyhow!("usage: runbench FILE KIND REPEATS"));
    };
    let repeats = repeats.as_str().parse::<u32>()?;
    let bytes = fs::read(rt, file.as_str())?;
    let sheet = read_sheet(rt.alloc(), &bytes)?;
    let sum = match kind.as_str() {
        "word" => repeat::<Word>(rt.alloc(), &sheet, repeats)?,
        "pair" => repeat::<Pair<Word>>(rt.alloc(), &sheet, repeats)?,
        _ => return Err(anyhow!("KIND is word or pair")),
    };
    println!(rt; "checksum {sum}")?;
    Ok(())
}

fn main(rt: HostRuntime) -> anyhow::Result<()> {
    let words: Vec<String> = env::args(&rt)?.skip(1).collect(rt.alloc())?;
    runbench(&rt, &words)
}
