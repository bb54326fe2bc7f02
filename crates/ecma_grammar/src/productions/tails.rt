//! What may stand after the first operand of an assignment expression, one precedence of operators after the other.
ghost use Rattle.std.specs.Prelude.{◌≡◌, map};
ghost use Rattle.ecma_grammar.specs.productions.Tails.{links_tail, tails};
ghost use Rattle.ecma_grammar.specs.Written.{written_tail};

use super::*;

/// What may stand after what was read, and the form of the two.
#[derive(Clone, Copy)]
pub struct Tail {
    pub form: Form,
    pub production: Production,
}

macro_rules! tails_of {
    ($no_in:tt, $middle:tt) => {
        [
            Tail { form: Form::Chain, production: UPDATES },
            Tail { form: Form::Chain, production: optional!(Behind(Terminal::Punct("**"), Part::Power)) },
            Tail { form: Form::Chain, production: FACTORS },
            Tail { form: Form::Chain, production: TERMS },
            Tail { form: Form::Chain, production: SHIFTS },
            Tail { form: Form::Chain, production: relations!($no_in) },
            Tail { form: Form::Chain, production: equalities!($no_in) },
            Tail { form: Form::Chain, production: conjunctions!($no_in) },
            Tail { form: Form::Chain, production: exclusions!($no_in) },
            Tail { form: Form::Chain, production: disjunctions!($no_in) },
            Tail { form: Form::Logical, production: first_of!(coalescing!($no_in), logicals!($no_in)) },
            Tail { form: Form::Chain, production: choice!($no_in, $middle) },
            Tail { form: Form::Chain, production: assignments!($no_in, $middle) },
        ]
    };
}

static LINKS_TAIL: Tail = Tail {
    form: Form::Links,
    production: LINKS,
};

static TAILS: [Tail; 13] = tails_of!(false, false);

static TAILS_MIDDLE: [Tail; 13] = tails_of!(false, true);

static TAILS_NO_IN: [Tail; 13] = tails_of!(true, false);

static TAILS_NO_IN_MIDDLE: [Tail; 13] = tails_of!(true, true);

/// The links after the first operand.
pub fn links_tail() -> &'static Tail
    ensures { written_tail result.now ≡ links_tail }
{
    &LINKS_TAIL
}

/// What stands after a chain of links, up to an assignment: without the operator `in` where `no_in` is set; in the middle of a conditional expression where `middle` is set.
pub fn operator_tails(no_in: bool, middle: bool) -> &'static [Tail]
    ensures { map written_tail result.now ≡ tails no_in middle }
{
    match (no_in, middle) {
        (false, false) => &TAILS,
        (false, true) => &TAILS_MIDDLE,
        (true, false) => &TAILS_NO_IN,
        (true, true) => &TAILS_NO_IN_MIDDLE,
    }
}
