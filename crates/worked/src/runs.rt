use crate::sample::{FILE, marked};
use ring::{Pair, Wheel, Word};
use runner::{Bench, run};
use sheet::{Numerals, Operand, Operation, Sheet, Step};
use sheet_file::read;
use std::alloc::Global;
use std::test::Fail;

fn worked(heap: Global) -> Result<Sheet, Fail> {
    read(&FILE, marked(heap, 4)?).map_err(|_| Fail::new("refused"))
}

fn word(value: u32) -> Word {
    Word::from(value)
}

fn pair(value: u32, rate: u32) -> Pair<Word> {
    Pair {
        value: word(value),
        rate: word(rate),
    }
}

// A run with so many measures, cells and places is refused with the number, and leaves cells and places as they were.
fn refused(
    rt: &HostRuntime,
    measures: usize,
    cells: usize,
    places: usize,
    number: u8,
) -> Result<(), Fail> {
    let sheet = worked(rt.alloc())?;
    let settings = [word(2); 9];
    let mut bench_cells = [word(77); 9];
    let mut outputs = [word(88); 17];
    if measures >= 10 || cells >= 10 || places >= 18 {
        return Err(Fail::new("more than there are"));
    }
    let mut bench = Bench::over(&mut bench_cells[0..cells]);
    let measures = &settings[0..measures];
    match run(&sheet, measures, &mut bench, &mut outputs[0..places]) {
        Ok(()) => return Err(Fail::new("ran")),
        Err(why) if u8::from(why) != number => return Err(Fail::new("another number")),
        Err(_) => {}
    }
    if bench_cells != [word(77); 9] || outputs != [word(88); 17] {
        return Err(Fail::new("written"));
    }
    Ok(())
}

#[test]
fn refusals(rt: HostRuntime) -> Result<(), Fail> {
    refused(&rt, 7, 3, 15, 14)?;
    refused(&rt, 9, 4, 16, 14)?;
    refused(&rt, 8, 3, 15, 15)?;
    refused(&rt, 8, 4, 15, 16)?;
    refused(&rt, 8, 9, 17, 16)
}

#[test]
fn words(rt: HostRuntime) -> Result<(), Fail> {
    let sheet = worked(rt.alloc())?;
    let mut measures = [word(0); 8];
    measures[0] = word(2);
    measures[1] = word(3);
    measures[2] = word(4);
    let mut cells = [word(77); 6];
    let mut outputs = [word(88); 16];
    let mut bench = Bench::over(&mut cells);
    run(&sheet, &measures, &mut bench, &mut outputs).map_err(|_| Fail::new("refused"))?;
    assert!(rt; cells == [word(6), word(6), word(36), word(30), word(77), word(77)]);
    let zeros = [word(0); 16];
    assert!(rt; outputs[0] == word(36) && outputs[1] == word(30) && outputs[2..16] == zeros[2..16]);
    Ok(())
}

#[test]
fn pairs(rt: HostRuntime) -> Result<(), Fail> {
    let sheet = worked(rt.alloc())?;
    let none = pair(0, 0);
    let mut measures = [none; 8];
    measures[0] = pair(2, 1);
    measures[1] = pair(3, 0);
    measures[2] = pair(4, 0);
    let mut cells = [none; 4];
    let mut outputs = [none; 16];
    let mut bench = Bench::over(&mut cells);
    run(&sheet, &measures, &mut bench, &mut outputs).map_err(|_| Fail::new("refused"))?;
    assert_eq!(rt; u32::from(outputs[0].value), 36);
    assert_eq!(rt; u32::from(outputs[0].rate), 24);
    Ok(())
}

// 2 - 3 and its opposite, modulo 97.
#[test]
fn wheels(rt: HostRuntime) -> Result<(), Fail> {
    let mut steps = marked(rt.alloc(), 2)?;
    assert!(rt; steps.len() == 2);
    steps[0] = Step {
        operation: Operation::Sub,
        left: Operand::Measure(0),
        right: Operand::Measure(1),
    };
    steps[1] = Step {
        operation: Operation::Neg,
        left: Operand::ResultOf(0),
        right: Operand::Zero,
    };
    let made = Sheet::make(Numerals::none(), steps, 2, [Operand::ResultOf(1); 16]);
    let sheet = made.map_err(|_| Fail::new("refused"))?;
    let mut measures = [Wheel::of(0); 8];
    measures[0] = Wheel::of(2);
    measures[1] = Wheel::of(3);
    let mut cells = [Wheel::of(0); 2];
    let mut outputs = [Wheel::of(0); 16];
    let mut bench = Bench::over(&mut cells);
    run(&sheet, &measures, &mut bench, &mut outputs).map_err(|_| Fail::new("refused"))?;
    assert!(rt; cells == [Wheel::of(96), Wheel::of(1)]);
    assert!(rt; outputs == [Wheel::of(1); 16]);
    Ok(())
}
