use crate::sample::{is_marked, marked};
use sheet::{Numerals, Operand, Sheet};
use std::test::Fail;

#[test]
fn numerals(rt: HostRuntime) -> Result<(), Fail> {
    let mut numerals = Numerals::none();
    assert!(rt; numerals.push(1).map_err(u8::from) == Err(20));
    assert_eq!(rt; numerals.count(), 0);
    for n in 2..10u16 {
        assert!(rt; numerals.push(n).is_ok());
    }
    assert!(rt; numerals.push(10).map_err(u8::from) == Err(18));
    assert!(rt; numerals.as_slice() == [2, 3, 4, 5, 6, 7, 8, 9].as_slice());
    Ok(())
}

// What a sheet of so many marked steps and one output is refused with, and whether its buffer came back.
fn refused(
    rt: &HostRuntime,
    room: usize,
    used: usize,
    output: Operand,
    number: u8,
) -> Result<(), Fail> {
    let mut outputs = [Operand::Zero; 16];
    outputs[15] = output;
    let buffer = marked(rt.alloc(), room)?;
    let Err(refused) = Sheet::make(Numerals::none(), buffer, used, outputs) else {
        return Err(Fail::new("made"));
    };
    if u8::from(refused.why) != number {
        return Err(Fail::new("another number"));
    }
    if !is_marked(&refused.buffer, room) {
        return Err(Fail::new("another buffer"));
    }
    Ok(())
}

#[test]
fn making(rt: HostRuntime) -> Result<(), Fail> {
    refused(&rt, 2001, 2001, Operand::Zero, 18)?;
    refused(&rt, 2, 3, Operand::Zero, 19)?;
    refused(&rt, 3, 3, Operand::ResultOf(3), 22)?;
    refused(&rt, 3, 3, Operand::Numeral(0), 22)?;
    let outputs = [Operand::ResultOf(1); 16];
    let Ok(sheet) = Sheet::make(Numerals::none(), marked(rt.alloc(), 3)?, 2, outputs) else {
        return Err(Fail::new("refused"));
    };
    assert_eq!(rt; sheet.steps().len(), 2);
    assert_eq!(rt; sheet.counts().negations, 2);
    Ok(())
}
