//! The operators of Numbers, their texts and their numerals, by rows of expected answers.
ghost use Rattle.std.specs.Prelude.{◌≡◌};

mod grid;
mod rows;

use crate::derived::{
    compare_purities, compare_types, compare_values, hash_purity, hash_type, hash_value,
    numbers_equal, purities_equal, types_equal, values_equal,
};
use crate::{
    JsNumber, JsType, NoMemory, Purity, SafeInt, ToJsString, UnknownError, Value,
    big_int_literal_length, is_blank, is_line_terminator, is_white_space, num_from_str,
    numeral_value, numeric_literal_length, to_int32,
};
use std::cmp::Ordering;
use std::hash::{DefaultHasher, Hash, Hasher};
use std::process::Abort;
use std::test::Fail;

// A copy equals what it copies: proved of every Number.
fn copy(number: &JsNumber) -> JsNumber
    ensures { result ≡ number.now }
{
    *number
}

// The Number that a word of a table stands for.
fn number(word: &str) -> Result<JsNumber, Fail> {
    Ok(match word {
        "NaN" => JsNumber::NaN,
        "-0" => JsNumber::NegZero,
        "Infinity" => JsNumber::Infinity,
        "-Infinity" => JsNumber::NegInfinity,
        _ => JsNumber::Whole(SafeInt::new(word.parse::<i64>()?).ok_or("outside the domain")?),
    })
}

fn answer(word: &str) -> Result<Option<JsNumber>, Fail> {
    if word == "none" {
        return Ok(None);
    }
    Ok(Some(number(word)?))
}

fn check_pairs<F: Fn(JsNumber, JsNumber) -> Option<JsNumber>>(
    rt: &impl Abort,
    operator: F,
    table: &str,
) -> Result<(), Fail>
    requires { F.IsAlwaysCallable operator }
{
    let mut wanted = table.split_whitespace();
    for left in grid::GRID.split_whitespace() {
        for right in grid::GRID.split_whitespace() {
            let result = operator(number(left)?, number(right)?);
            let wanted = answer(wanted.next().ok_or("the table is too short")?)?;
            assert_eq!(rt; result, wanted, "{left} and {right}");
        }
    }
    assert!(rt; wanted.next().is_none());
    Ok(())
}

#[test]
fn operators(rt: HostRuntime) -> Result<(), Fail> {
    check_pairs(&rt, JsNumber::add, grid::ADD)?;
    check_pairs(&rt, JsNumber::sub, grid::SUB)?;
    check_pairs(&rt, JsNumber::mul, grid::MUL)?;
    check_pairs(&rt, JsNumber::div, grid::DIV)?;
    check_pairs(&rt, JsNumber::rem, grid::REM)?;
    check_pairs(&rt, JsNumber::pow, grid::POW)?;
    check_pairs(&rt, JsNumber::shl, grid::SHL)?;
    check_pairs(&rt, JsNumber::shr, grid::SHR)?;
    check_pairs(&rt, JsNumber::unsigned_shr, grid::UNSIGNED_SHR)?;
    check_pairs(&rt, JsNumber::bit_and, grid::BIT_AND)?;
    check_pairs(&rt, JsNumber::bit_or, grid::BIT_OR)?;
    check_pairs(&rt, JsNumber::bit_xor, grid::BIT_XOR)?;
    check_pairs(
        &rt,
        |left, right| Some(JsNumber::from(i32::from(left.num_eq(&right)))),
        grid::NUM_EQ,
    )
}

#[test]
fn unary_operators(rt: HostRuntime) -> Result<(), Fail> {
    let mut negations = grid::NEG.split_whitespace();
    let mut complements = grid::NOT.split_whitespace();
    let mut signed = grid::AS_INT32.split_whitespace();
    let mut unsigned = grid::AS_UINT32.split_whitespace();
    for word in grid::GRID.split_whitespace() {
        let value = number(word)?;
        assert_eq!(rt;
            value.neg(),
            answer(negations.next().ok_or("neg")?)?,
            "-{word}"
        );
        assert_eq!(rt;
            value.not(),
            answer(complements.next().ok_or("not")?)?,
            "~{word}"
        );
        assert_eq!(rt;
            JsNumber::from(value.as_int32()),
            number(signed.next().ok_or("i32")?)?,
            "{word}"
        );
        assert_eq!(rt;
            JsNumber::from(value.as_uint32()),
            number(unsigned.next().ok_or("u32")?)?,
            "{word}"
        );
        assert_eq!(rt; to_int32(value), value.as_int32());
    }
    Ok(())
}

#[test]
fn kinds_and_texts(rt: HostRuntime) -> Result<(), Fail> {
    let rows = [
        ("0", "0", "zero"),
        ("-0", "0", "zero"),
        ("5", "5", ""),
        ("-5", "-5", ""),
        ("9007199254740991", "9007199254740991", ""),
        ("-9007199254740991", "-9007199254740991", ""),
        ("NaN", "NaN", "NaN"),
        ("Infinity", "Infinity", "infinite"),
        ("-Infinity", "-Infinity", "infinite"),
    ];
    for (word, text, kind) in rows {
        let value = number(word)?;
        assert_eq!(rt; value.to_js_string(rt.alloc())?.as_str(), text);
        assert_eq!(rt; value.is_zero(), kind == "zero", "{word}");
        assert_eq!(rt; value.is_nan(), kind == "NaN", "{word}");
        assert_eq!(rt; value.is_infinite(), kind == "infinite", "{word}");
    }
    Ok(())
}

// Texts and Numbers that no grid has: -8 modulo 2^32, and the power of 2 that leaves the domain.
#[test]
fn bounds_of_operators(rt: HostRuntime) -> Result<(), Fail> {
    assert_eq!(rt; number("-8")?.as_uint32(), 4294967288);
    assert_eq!(rt;
        number("2")?.pow(number("52")?),
        answer("4503599627370496")?
    );
    assert_eq!(rt; number("2")?.pow(number("53")?), None);
    Ok(())
}

#[test]
fn errors(rt: HostRuntime) -> Result<(), Fail> {
    let rows = [
        (NoMemory.to_string(rt.alloc())?, "out of memory"),
        (UnknownError.to_string(rt.alloc())?, "the value is unknown"),
    ];
    for (text, wanted) in rows {
        assert_eq!(rt; text.as_str(), wanted);
    }
    Ok(())
}

#[test]
fn safe_integers(rt: HostRuntime) {
    let rows = [
        (0, true),
        (-1, true),
        (9007199254740991, true),
        (-9007199254740991, true),
        (9007199254740992, false),
        (-9007199254740992, false),
        (i64::MAX, false),
        (i64::MIN, false),
    ];
    for (number, is_safe) in rows {
        let wanted = if is_safe { Some(number) } else { None };
        assert_eq!(rt; SafeInt::new(number).map(SafeInt::get), wanted);
    }
}

#[test]
fn numerals(rt: HostRuntime) -> Result<(), Fail> {
    for row in rows::NUMERALS.split(';') {
        let (text, wanted) = row.split_once('|').ok_or("a row")?;
        assert_eq!(rt; numeral_value(text), answer(wanted)?, "{text}");
    }

    // A number of 401 digits after as many zeros, and an exponent that takes them all back.
    let mut long = String::from_str(rt.alloc(), "0.")?;
    for _ in 0..400 {
        long.push('0')?;
    }
    long.push_str("5e401")?;
    assert_eq!(rt; numeral_value(long.as_str()), answer("5")?);
    Ok(())
}

// How many bytes the literal of a Number has at the front of a text, and that of a BigInt.
#[test]
fn literals_at_the_front(rt: HostRuntime) {
    let rows = [
        ("", None, None),
        ("x", None, None),
        (".", None, None),
        (".5.5", Some(2), None),
        ("1..5", Some(2), None),
        ("08", Some(1), None),
        ("1e+", Some(1), None),
        ("1_0_", Some(3), None),
        ("0x1Fg", Some(4), None),
        ("0b12n", Some(3), None),
        ("0n", Some(1), Some(2)),
        ("1_000n1", Some(5), Some(6)),
        ("0x_1n", Some(1), None),
        ("1.0n", Some(3), None),
    ];
    for (text, number, big_int) in rows {
        assert_eq!(rt; numeric_literal_length(text.as_bytes()), number, "{text}");
        assert_eq!(rt; big_int_literal_length(text.as_bytes()), big_int, "{text}");
    }
    assert!(rt; is_white_space('\u{FEFF}') && !is_white_space('\n') && !is_white_space('\u{200B}'));
    assert!(rt; is_line_terminator('\u{2028}') && !is_line_terminator('\u{85}'));
    assert!(rt; is_blank(' ') && is_blank('\r') && !is_blank('a'));
}

fn hash_of<T: Hash>(value: &T) -> u64 {
    let mut state = DefaultHasher::new();
    value.hash(&mut state);
    state.finish()
}

// The calls of `derived` make no difference to what they stand for.
#[test]
fn derived_traits(rt: HostRuntime) {
    let (small, large, unknown) = (Value::Known(1u32), Value::Known(2u32), Value::Unknown);
    assert!(rt; values_equal(&small, &small) && !values_equal(&small, &unknown));
    assert_eq!(rt; compare_values(&small, &large), Ordering::Less);
    assert_eq!(rt; compare_values(&unknown, &large), Ordering::Greater);
    assert_eq!(rt;
        compare_types(&JsType::Str, &JsType::Symbol),
        Ordering::Less
    );
    assert_eq!(rt;
        compare_purities(&Purity::Pure, &Purity::Pure),
        Ordering::Equal
    );
    assert!(rt;
        types_equal(&JsType::Num, &JsType::Num) && !types_equal(&JsType::Num, &JsType::Obj)
    );
    assert!(rt; purities_equal(&Purity::Pure, &Purity::Pure));

    let mut state = DefaultHasher::new();
    hash_value(&small, &mut state);
    assert_eq!(rt; state.finish(), hash_of(&small));
    let mut state = DefaultHasher::new();
    hash_type(&JsType::Num, &mut state);
    assert_eq!(rt; state.finish(), hash_of(&JsType::Num));
    let mut state = DefaultHasher::new();
    hash_purity(&Purity::Pure, &mut state);
    assert_eq!(rt; state.finish(), hash_of(&Purity::Pure));
}

#[test]
fn texts_to_numbers(rt: HostRuntime) -> Result<(), Fail> {
    for row in rows::TEXTS.split(';') {
        let (text, wanted) = row.split_once('|').ok_or("a row")?;
        let wanted = match answer(wanted)? {
            Some(number) => Value::Known(number),
            None => Value::Unknown,
        };
        assert_eq!(rt; num_from_str(text), wanted, "{text}");
    }
    Ok(())
}

#[test]
fn numbers_are_told_apart(rt: HostRuntime) -> Result<(), Fail> {
    let words = ["0", "1", "-0", "NaN", "Infinity", "-Infinity"];
    for left in words {
        for right in words {
            assert_eq!(rt;
                numbers_equal(&copy(&number(left)?), &number(right)?),
                left == right
            );
        }
    }
    Ok(())
}

#[test]
fn three_valued_logic(rt: HostRuntime) {
    let (yes, no, unknown) = (Value::Known(true), Value::Known(false), Value::Unknown);
    let rows = [
        (yes, yes, yes, yes),
        (yes, no, no, yes),
        (yes, unknown, unknown, yes),
        (no, no, no, no),
        (no, unknown, no, unknown),
        (unknown, unknown, unknown, unknown),
    ];
    for (left, right, both, either) in rows {
        assert_eq!(rt; left.and(right), both);
        assert_eq!(rt; right.and(left), both);
        assert_eq!(rt; left.or(right), either);
        assert_eq!(rt; right.or(left), either);
    }
    assert_eq!(rt; !yes, no);
    assert_eq!(rt; !unknown, unknown);
    assert!(rt; yes.is_known() && unknown.is_unknown());
    assert_eq!(rt; no.into_result(), Ok(false));
    assert_eq!(rt; unknown.into_result(), Err(UnknownError));
    assert!(rt; no < yes && yes < unknown);
}

#[test]
fn types_and_purity(rt: HostRuntime) {
    let rows = [
        (JsType::Undefined, true),
        (JsType::Null, true),
        (JsType::Bool, true),
        (JsType::Str, false),
        (JsType::Symbol, false),
        (JsType::Num, true),
        (JsType::Obj, false),
    ];
    for (kind, is_added) in rows {
        assert_eq!(rt; Value::Known(kind).casted_to_number_on_add(), is_added);
    }
    assert!(rt; !Value::<JsType>::Unknown.casted_to_number_on_add());
    assert!(rt; JsType::Undefined < JsType::Obj);

    for left in [Purity::Pure, Purity::MayBeImpure] {
        for right in [Purity::Pure, Purity::MayBeImpure] {
            assert_eq!(rt; (left + right).is_pure(), left.is_pure() && right.is_pure());
        }
    }
    assert!(rt; Purity::MayBeImpure < Purity::Pure);
}
