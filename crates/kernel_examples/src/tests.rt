use cubes::{Cube, Expression, ROWS, Row, Sign};
use kernels::{Kernel, KernelRefusal, kernels_of, kernels_of_all};
use std::test::Fail;

// the letters of the examples: x or a, y or b, z or c, d, and the numeral 4
const X: usize = 0;

const Y: usize = 1;

const Z: usize = 2;

const D: usize = 3;

const FOUR: usize = 8;

// a product of powers of letters
fn cube(powers: &[(usize, u8)]) -> Cube {
    let mut c = Cube::one();
    for (letter, power) in powers {
        if let Some(p) = c.powers.get_mut(*letter) {
            *p = *power;
        }
    }
    c
}

// `plus` and `minus` say the sign by name, so that an expression reads as it is written
fn plus(powers: &[(usize, u8)]) -> Row {
    Row {
        cube: cube(powers),
        sign: Sign::Plus,
    }
}

fn minus(powers: &[(usize, u8)]) -> Row {
    Row {
        cube: cube(powers),
        sign: Sign::Minus,
    }
}

// a kernel as the tests expect it; the rows past those written are not used
fn kernel(expression: usize, cokernel: &[(usize, u8)], used: &[usize]) -> Kernel {
    let mut rows = [false; ROWS];
    for k in used {
        if let Some(row) = rows.get_mut(*k) {
            *row = true;
        }
    }
    Kernel {
        expression,
        cokernel: cube(cokernel),
        rows,
    }
}

// what stands in a list before anything is written
fn mark() -> Kernel {
    kernel(77, &[(D, 9)], &[5])
}

// x - b x^3 + c x^5 - d x^7: x divides every row, so the whole expression is no kernel
#[test]
fn powers_of_one_letter(rt: HostRuntime) -> Result<(), Fail> {
    let e = Expression::of(&[
        plus(&[(X, 1)]),
        minus(&[(X, 3), (Y, 1)]),
        plus(&[(X, 5), (Z, 1)]),
        minus(&[(X, 7), (D, 1)]),
    ])?;
    let mut out = [mark(); 4];
    assert_eq!(rt; kernels_of(5, &e, &mut out)?, 3);
    let expected = [
        kernel(5, &[(X, 1)], &[0, 1, 2, 3]),
        kernel(5, &[(X, 3)], &[1, 2, 3]),
        kernel(5, &[(X, 5)], &[2, 3]),
        mark(),
    ];
    assert!(rt; out == expected);
    Ok(())
}

// x^3 y + x^2 y^2 z, 4 x + 4 y z - x y z and 4 x y - x^2 y, one list behind the other
#[test]
fn three_expressions(rt: HostRuntime) -> Result<(), Fail> {
    let expressions = [
        Expression::of(&[plus(&[(X, 3), (Y, 1)]), plus(&[(X, 2), (Y, 2), (Z, 1)])])?,
        Expression::of(&[
            plus(&[(FOUR, 1), (X, 1)]),
            plus(&[(FOUR, 1), (Y, 1), (Z, 1)]),
            minus(&[(X, 1), (Y, 1), (Z, 1)]),
        ])?,
        Expression::of(&[plus(&[(FOUR, 1), (X, 1), (Y, 1)]), minus(&[(X, 2), (Y, 1)])])?,
    ];
    let mut out = [mark(); 7];
    assert_eq!(rt; kernels_of_all(&expressions, &mut out)?, 6);
    let expected = [
        kernel(0, &[(X, 2), (Y, 1)], &[0, 1]),
        kernel(1, &[], &[0, 1, 2]),
        kernel(1, &[(FOUR, 1)], &[0, 1]),
        kernel(1, &[(Y, 1), (Z, 1)], &[1, 2]),
        kernel(1, &[(X, 1)], &[0, 2]),
        kernel(2, &[(X, 1), (Y, 1)], &[0, 1]),
        mark(),
    ];
    assert!(rt; out == expected);
    Ok(())
}

// no row, one row, a b + a c
#[test]
fn few_rows(rt: HostRuntime) -> Result<(), Fail> {
    let ab = plus(&[(X, 1), (Y, 1)]);
    let ac = plus(&[(X, 1), (Z, 1)]);
    let mut out = [mark(); 2];
    assert_eq!(rt; kernels_of(0, &Expression::of(&[])?, &mut out)?, 0);
    assert_eq!(rt; kernels_of(0, &Expression::of(&[ab])?, &mut out)?, 0);
    assert!(rt; out == [mark(), mark()]);
    assert_eq!(rt; kernels_of(0, &Expression::of(&[ab, ac])?, &mut out)?, 1);
    assert!(rt; out == [kernel(0, &[(X, 1)], &[0, 1]), mark()]);
    Ok(())
}

// a b + a c + b c has four kernels: a list of three places is left as it was
#[test]
fn short_list(rt: HostRuntime) -> Result<(), Fail> {
    let e = Expression::of(&[
        plus(&[(X, 1), (Y, 1)]),
        plus(&[(X, 1), (Z, 1)]),
        plus(&[(Y, 1), (Z, 1)]),
    ])?;
    let mut short = [mark(); 3];
    match kernels_of(0, &e, &mut short) {
        Ok(_) => return Err(Fail::new("taken")),
        Err(refusal) => assert_eq!(rt; u8::from(refusal), 9),
    }
    assert!(rt; short == [mark(), mark(), mark()]);
    let mut out = [mark(); 4];
    assert_eq!(rt; kernels_of(0, &e, &mut out)?, 4);
    let expected = [
        kernel(0, &[], &[0, 1, 2]),
        kernel(0, &[(Z, 1)], &[1, 2]),
        kernel(0, &[(Y, 1)], &[0, 2]),
        kernel(0, &[(X, 1)], &[0, 1]),
    ];
    assert!(rt; out == expected);
    Ok(())
}
