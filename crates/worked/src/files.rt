use crate::sample::{FILE, damaged, is_marked, marked};
use sheet_file::{copy_file, read, write};
use std::test::Fail;

// A byte changed and the length, the places of the buffer, and the refusal's number and byte.
// No names at the fields: a case stays one line of the table.
struct Case(usize, u8, usize, usize, u8, usize);

const CASES: [Case; 24] = [
    Case(66, 0, 12, 9, 18, 0),
    Case(0, 4, 67, 9, 18, 0),
    Case(1, 14, 67, 9, 18, 1),
    Case(3, 3, 67, 9, 18, 1),
    Case(3, 18, 67, 9, 18, 1),
    Case(5, 16, 67, 9, 18, 5),
    Case(7, 21, 67, 9, 18, 5),
    Case(8, 40, 67, 9, 18, 5),
    Case(9, 36, 67, 9, 18, 9),
    Case(11, 31, 67, 9, 18, 9),
    Case(66, 0, 66, 9, 18, 9),
    Case(66, 0, 67, 3, 19, 0),
    Case(13, 1, 67, 3, 19, 0),
    Case(13, 1, 67, 9, 20, 13),
    Case(15, 5, 67, 9, 21, 15),
    Case(15, 0, 67, 9, 21, 15),
    Case(15, 4, 67, 9, 21, 15),
    Case(16, 18, 67, 9, 21, 15),
    Case(23, 31, 67, 9, 21, 20),
    Case(26, 34, 67, 9, 21, 25),
    Case(31, 9, 67, 9, 21, 30),
    Case(35, 18, 67, 9, 22, 35),
    Case(37, 36, 67, 9, 22, 37),
    Case(66, 1, 67, 9, 22, 65),
];

#[test]
fn refusals(rt: HostRuntime) -> Result<(), Fail> {
    for case in &CASES {
        let Case(at, value, len, room, number, place) = case;
        let bytes = damaged(rt.alloc(), *at, *value, *len)?;
        let Err(refused) = read(&bytes, marked(rt.alloc(), *room)?) else {
            return Err(Fail::new("accepted"));
        };
        assert_eq!(rt; u8::from(refused.why), *number);
        assert_eq!(rt; refused.place, *place);
        assert!(rt; is_marked(&refused.buffer, *room));
    }
    Ok(())
}

#[test]
fn written_again(rt: HostRuntime) -> Result<(), Fail> {
    let Ok(sheet) = read(&FILE, marked(rt.alloc(), 6)?) else {
        return Err(Fail::new("refused"));
    };
    let mut short = [9u8; 66];
    assert!(rt; write(&sheet, &mut short).map_err(u8::from) == Err(17));
    assert!(rt; short == [9u8; 66]);
    let mut out = [9u8; 70];
    let Ok(end) = write(&sheet, &mut out) else {
        return Err(Fail::new("not written"));
    };
    assert_eq!(rt; end, 67);
    let nines = [9u8; 70];
    assert!(rt; out[0..67] == FILE[0..67] && out[67..70] == nines[67..70]);
    let buffer = sheet.into_buffer();
    assert!(rt; buffer.len() == 6);
    assert!(rt; is_marked(&buffer.as_slice()[4..6], 2));
    let mut again = [9u8; 67];
    assert!(rt; copy_file(&FILE, marked(rt.alloc(), 4)?, &mut again) == Ok(67));
    assert!(rt; again == FILE);
    Ok(())
}
