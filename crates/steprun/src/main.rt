// steprun FILE KIND M0 .. M7: runs a sheet file at eight measures and prints the value of each formula.
#![tactic(auto)]

use std::alloc::AllocError;
use std::process::ExitCode;
use std::{env, fs};
use tablet::{EvaluationError, Kind, answer_for};

const WORDS: [&str; 10] = [
    "FILE", "KIND", "M0", "M1", "M2", "M3", "M4", "M5", "M6", "M7",
];

// Says how the program is used and which word is wrong; the run has failed.
fn misused(rt: &HostRuntime, name: &str, why: &str) -> anyhow::Result<ExitCode> {
    eprintln!(rt; "{name} {why}")?;
    eprintln!(rt; "usage: steprun FILE KIND M0 M1 M2 M3 M4 M5 M6 M7")?;
    eprintln!(rt; "  KIND is word, wheel or pair")?;
    eprintln!(rt;
        "  a measure is a decimal number below 4294967296, for the wheel below 97, with a minus for its opposite"
    )?;
    eprintln!(rt; "  for pairs it is VALUE:RATE, both such numbers")?;
    Ok(ExitCode::FAILURE)
}

fn wrong_measure(rt: &HostRuntime, at: usize, word: &str) -> anyhow::Result<ExitCode> {
    eprintln!(rt; "the measure is given as: {word}")?;
    let name = WORDS[2..].get(at).copied().unwrap_or("a measure");
    misused(rt, name, "is no measure of this kind")
}

// Says why there is nothing to print; the run has failed.
fn tell(rt: &HostRuntime, error: EvaluationError, measures: &[String]) -> anyhow::Result<ExitCode> {
    match error {
        EvaluationError::Memory => Err(AllocError.into()),
        EvaluationError::WrongMeasure(at) => {
            let word = measures.get(at).map_or("", |word| word.as_str());
            wrong_measure(rt, at, word)
        }
        EvaluationError::Refused { why, place } => {
            let number = u8::from(why);
            println!(rt; "refused {number} {place}")?;
            Ok(ExitCode::FAILURE)
        }
        EvaluationError::NotRun(_) => misused(rt, "M0 to M7", "are to be eight measures"),
    }
}

fn steprun(rt: &HostRuntime, words: &[String]) -> anyhow::Result<ExitCode> {
    if words.len() < 10 {
        return misused(rt, WORDS[words.len()], "is missing");
    }
    if words.len() > 10 {
        return misused(rt, words[10].as_str(), "is one word too many");
    }
    let Ok(kind) = words[1].as_str().parse::<Kind>() else {
        return misused(rt, words[1].as_str(), "is no KIND");
    };
    let Ok(file) = fs::read(rt, words[0].as_str()) else {
        return misused(rt, words[0].as_str(), "is no FILE that can be read");
    };
    let measures = &words[2..];
    match answer_for(rt.alloc(), kind, &file, measures) {
        Ok(text) => {
            rt.print(text.as_str())?;
            Ok(ExitCode::SUCCESS)
        }
        Err(error) => tell(rt, error, measures),
    }
}

fn main(rt: HostRuntime) -> anyhow::Result<ExitCode> {
    let words: Vec<String> = env::args(&rt)?.skip(1).collect(rt.alloc())?;
    steprun(&rt, &words)
}
