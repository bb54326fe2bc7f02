//! Statements (ECMAScript, 14).
ghost use Rattle.std.specs.Prelude.{◌≡◌, false};
ghost use Rattle.ecma_grammar.specs.Rules.{statement_rule};
ghost use Rattle.ecma_grammar.specs.Written.{is_name, written};

use super::*;

/// A production of this topic that has a name.
#[derive(Clone, Copy, Debug)]
pub enum StatementRule {
    InParentheses,
    If,
    ForLeft,
    ForAwait,
    ForRest,
    ForHead,
    For,
    While,
    DoWhile,
    SwitchCase,
    Switch,
    CatchClause,
    Try,
    Jump,
    Labeled,
    ExpressionStatement,
    Statement,
}

/// The production of a name.
#[tactic(auto, unfolding(crate::specs::productions::Statements::in_parentheses, crate::specs::productions::Statements::if_, crate::specs::productions::Statements::for_left, crate::specs::productions::Statements::for_await, crate::specs::productions::Statements::for_rest, crate::specs::productions::Statements::for_head, crate::specs::productions::Statements::for_, crate::specs::productions::Statements::while_, crate::specs::productions::Statements::do_while, crate::specs::productions::Statements::switch_case, crate::specs::productions::Statements::switch, crate::specs::productions::Statements::catch_clause, crate::specs::productions::Statements::try_, crate::specs::productions::Statements::jump, crate::specs::productions::Statements::labeled, crate::specs::productions::Statements::expression_statement, crate::specs::productions::Statements::statement_body))]
pub(super) fn statement_rule(rule: StatementRule) -> &'static Production
    ensures says { written result.now ≡ statement_rule rule }
    ensures unnamed { is_name result.now ≡ false }
{
    match rule {
        StatementRule::InParentheses => &IN_PARENTHESES_BODY,
        StatementRule::If => &IF__BODY,
        StatementRule::ForLeft => &FOR_LEFT_BODY,
        StatementRule::ForAwait => &FOR_AWAIT_BODY,
        StatementRule::ForRest => &FOR_REST_BODY,
        StatementRule::ForHead => &FOR_HEAD_BODY,
        StatementRule::For => &FOR__BODY,
        StatementRule::While => &WHILE__BODY,
        StatementRule::DoWhile => &DO_WHILE_BODY,
        StatementRule::SwitchCase => &SWITCH_CASE_BODY,
        StatementRule::Switch => &SWITCH_BODY,
        StatementRule::CatchClause => &CATCH_CLAUSE_BODY,
        StatementRule::Try => &TRY__BODY,
        StatementRule::Jump => &JUMP_BODY,
        StatementRule::Labeled => &LABELED_BODY,
        StatementRule::ExpressionStatement => &EXPRESSION_STATEMENT_BODY,
        StatementRule::Statement => &STATEMENT_BODY,
    }
}

pub(super) const IN_PARENTHESES: Production = The(Rule::Statement(StatementRule::InParentheses));

pub(super) const IF_: Production = The(Rule::Statement(StatementRule::If));

pub(super) const FOR_LEFT: Production = The(Rule::Statement(StatementRule::ForLeft));

pub(super) const FOR_AWAIT: Production = The(Rule::Statement(StatementRule::ForAwait));

pub(super) const FOR_REST: Production = The(Rule::Statement(StatementRule::ForRest));

pub(super) const FOR_HEAD: Production = The(Rule::Statement(StatementRule::ForHead));

pub(super) const FOR_: Production = The(Rule::Statement(StatementRule::For));

pub(super) const WHILE_: Production = The(Rule::Statement(StatementRule::While));

pub(super) const DO_WHILE: Production = The(Rule::Statement(StatementRule::DoWhile));

pub(super) const SWITCH_CASE: Production = The(Rule::Statement(StatementRule::SwitchCase));

pub(super) const SWITCH: Production = The(Rule::Statement(StatementRule::Switch));

pub(super) const CATCH_CLAUSE: Production = The(Rule::Statement(StatementRule::CatchClause));

pub(super) const TRY_: Production = The(Rule::Statement(StatementRule::Try));

pub(super) const JUMP: Production = The(Rule::Statement(StatementRule::Jump));

pub(super) const LABELED: Production = The(Rule::Statement(StatementRule::Labeled));

pub(super) const EXPRESSION_STATEMENT: Production = The(Rule::Statement(
    StatementRule::ExpressionStatement,
));

// '(' Expr ')'
static IN_PARENTHESES_BODY: Production = all!(punct!("("), expression!(false), punct!(")"));

static IF__BODY: Production = node!(
    Plain::IfStmt,
    all!(
        word!("if"),
        IN_PARENTHESES,
        STATEMENT,
        maybe!(all!(word!("else"), STATEMENT))
    )
);

// Var.N / Expr.N
static FOR_LEFT_BODY: Production = first_of!(variables!(true, Nothing), expression!(true));

static FOR_AWAIT_BODY: Production = node!(
    Plain::ForOfStmt { is_await: true },
    all!(
        word!("for"),
        word!("await"),
        punct!("("),
        FOR_LEFT,
        word!("of"),
        ASSIGN,
        punct!(")"),
        STATEMENT
    )
);

// Rest = Expr? ';' Expr?
static FOR_REST_BODY: Production = all!(
    punct!(";"),
    maybe!(expression!(false)),
    punct!(";"),
    maybe!(expression!(false))
);

// Head = ';' Rest / (Var.N / Expr.N) (';' Rest / 'in' Expr / 'of' Assign)
static FOR_HEAD_BODY: Production = first_of!(
    node!(Plain::ForStmt, all!(Put(Flag::Absent), FOR_REST)),
    Build(
        Form::Chain,
        &all!(
            FOR_LEFT,
            first_of!(
                item!(Plain::ForStmt, FOR_REST),
                item!(Plain::ForInStmt, all!(word!("in"), expression!(false))),
                item!(
                    Plain::ForOfStmt { is_await: false },
                    all!(word!("of"), ASSIGN)
                )
            )
        )
    )
);

static FOR__BODY: Production = Build(
    Form::Headed,
    &all!(word!("for"), punct!("("), FOR_HEAD, punct!(")"), STATEMENT),
);

static WHILE__BODY: Production = node!(
    Plain::WhileStmt,
    all!(word!("while"), IN_PARENTHESES, STATEMENT)
);

static DO_WHILE_BODY: Production = Build(
    Form::Swapped(Plain::DoWhileStmt),
    &all!(
        word!("do"),
        STATEMENT,
        word!("while"),
        IN_PARENTHESES,
        optional!(punct!(";"))
    ),
);

// ('case' Expr / 'default') ':' Stmt*
static SWITCH_CASE_BODY: Production = node!(
    Plain::SwitchCase,
    all!(
        first_of!(
            all!(word!("case"), expression!(false)),
            all!(word!("default"), Put(Flag::Absent))
        ),
        punct!(":"),
        list!(Many(&STATEMENT))
    )
);

static SWITCH_BODY: Production = node!(
    Plain::SwitchStmt,
    all!(
        word!("switch"),
        IN_PARENTHESES,
        punct!("{"),
        list!(Many(&SWITCH_CASE)),
        punct!("}")
    )
);

// 'catch' ('(' Pattern [Ann] ')')? Block
static CATCH_CLAUSE_BODY: Production = node!(
    Plain::CatchClause,
    all!(
        word!("catch"),
        maybe!(all!(
            punct!("("),
            Build(
                Form::Annotated,
                &all!(PATTERN, Put(Flag::Absent), ANNOTATION)
            ),
            punct!(")")
        )),
        BLOCK
    )
);

static TRY__BODY: Production = node!(
    Plain::TryStmt,
    all!(
        word!("try"),
        BLOCK,
        first_of!(
            all!(CATCH_CLAUSE, maybe!(all!(word!("finally"), BLOCK))),
            all!(Put(Flag::Absent), word!("finally"), BLOCK)
        )
    )
);

static JUMP_BODY: Production = first_of!(
    node!(
        Plain::ReturnStmt,
        all!(
            word!("return"),
            maybe!(all!(SameLine, expression!(false))),
            END
        )
    ),
    node!(
        Plain::BreakStmt,
        all!(word!("break"), maybe!(all!(SameLine, IDENT)), END)
    ),
    node!(
        Plain::ContinueStmt,
        all!(word!("continue"), maybe!(all!(SameLine, IDENT)), END)
    ),
    node!(
        Plain::ThrowStmt,
        all!(word!("throw"), SameLine, expression!(false), END)
    ),
    node!(Plain::DebuggerStmt, all!(word!("debugger"), END))
);

static LABELED_BODY: Production = node!(Plain::LabeledStmt, all!(IDENT, punct!(":"), STATEMENT));

// !('{' / 'function' / 'class' / 'async' ~'function') Expr End
static EXPRESSION_STATEMENT_BODY: Production = node!(
    Plain::ExprStmt,
    all!(
        Unless(&first_of!(
            punct!("{"),
            word!("function"),
            word!("class"),
            all!(word!("async"), SameLine, word!("function"))
        )),
        expression!(false),
        END
    )
);

// Stmt, from each of its alternatives on with which it may begin
const FROM_LABELED: Production = first_of!(LABELED, DECLARATION, EXPRESSION_STATEMENT);

const FROM_JUMP: Production = first_of!(JUMP, FROM_LABELED);

const FROM_TRY: Production = first_of!(TRY_, FROM_JUMP);

const FROM_SWITCH: Production = first_of!(SWITCH, FROM_TRY);

const FROM_DO_WHILE: Production = first_of!(DO_WHILE, FROM_SWITCH);

const FROM_WHILE: Production = first_of!(WHILE_, FROM_DO_WHILE);

const FROM_FOR: Production = first_of!(FOR_AWAIT, FOR_, FROM_WHILE);

const FROM_IF: Production = first_of!(IF_, FROM_FOR);

const FROM_EMPTY: Production = first_of!(node!(Plain::EmptyStmt, punct!(";")), FROM_IF);

// Stmt
static STATEMENT_BODY: Production = first_of!(BLOCK, FROM_EMPTY);

pub(super) static FROM_LABELED_BODY: Production = FROM_LABELED;

pub(super) static FROM_JUMP_BODY: Production = FROM_JUMP;

pub(super) static FROM_TRY_BODY: Production = FROM_TRY;

pub(super) static FROM_SWITCH_BODY: Production = FROM_SWITCH;

pub(super) static FROM_DO_WHILE_BODY: Production = FROM_DO_WHILE;

pub(super) static FROM_WHILE_BODY: Production = FROM_WHILE;

pub(super) static FROM_FOR_BODY: Production = FROM_FOR;

pub(super) static FROM_IF_BODY: Production = FROM_IF;

pub(super) static FROM_EMPTY_BODY: Production = FROM_EMPTY;

pub(super) static STATEMENT_PART: Production = The(Rule::Statement(StatementRule::Statement));
