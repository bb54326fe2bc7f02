//! Runs of the whole program over devices in memory; conversions and refusals by topic stand in the modules beside.
mod assignments;
mod expressions;
mod modules;
mod names;
mod refusals;
mod statements;
mod texts;

use devices::VecSink;
use ecma_config::Config;
use ecma_print::print_module;
use ecma_strip::strip_type;
use ecma_text::read_module;
use std::alloc::{AllocError, Global};
use std::env::{Env, FillError};
use std::process::Abort;
use std::rc::RcStr;
use std::test::Fail;
use ts_to_js::*;

/// A run over devices in memory.
#[derive(Drop)]
struct Row {
    word: &'static str,
    src: &'static str,
    status: u8,
    out: &'static str,
    err: &'static str,
}

const ROWS: [Row; 21] = [
    Row {
        word: "",
        src: "let x: number = f(1);",
        status: DONE,
        out: "let x = f(1);\n",
        err: "",
    },
    Row {
        word: "",
        src: "",
        status: DONE,
        out: "",
        err: "",
    },
    Row {
        word: "",
        src: "// all of it\nlet größe, y : T = 10\nf(a, g(),)(größe)",
        status: DONE,
        out: "let größe, y = 10;\nf(a, g())(größe);\n",
        err: "",
    },
    Row {
        word: "",
        src: "type T = a.b; const s: T = \"x\" as T; log.info(s, 1,);",
        status: DONE,
        out: "const s = \"x\";\nlog.info(s, 1);\n",
        err: "",
    },
    Row {
        word: "",
        src: r#"log('it\'s', "\u{1F600}\x41");"#,
        status: DONE,
        out: "log('it\\'s', \"\\u{1F600}\\x41\");\n",
        err: "",
    },
    Row {
        word: "",
        src: r#"const s = "\8";"#,
        status: REFUSED,
        out: "",
        err: "error: Syntax at 10\n",
    },
    Row {
        word: "",
        src: "log(0x1F, 1_000, .5e-3, 0b11);",
        status: DONE,
        out: "log(0x1F, 1_000, .5e-3, 0b11);\n",
        err: "",
    },
    Row {
        word: "",
        src: "log(1_);",
        status: REFUSED,
        out: "",
        err: "error: Syntax at 4\n",
    },
    Row {
        word: "",
        src: "log(08);",
        status: REFUSED,
        out: "",
        err: "error: Syntax at 4\n",
    },
    Row {
        word: "",
        src: "let a;\nlet b, a;",
        status: REFUSED,
        out: "",
        err: "error: Redeclared a\n",
    },
    Row {
        word: "-x",
        src: "let x = 1;",
        status: BAD_WORD,
        out: "",
        err: "error: bad word -x\n",
    },
    Row {
        word: "",
        src: "enum E {}",
        status: REFUSED,
        out: "",
        err: "error: Syntax at 0\n",
    },
    Row {
        word: "",
        src: "f(1, 2",
        status: REFUSED,
        out: "",
        err: "error: Syntax at 6\n",
    },
    Row {
        word: "",
        src: "f /* left open",
        status: REFUSED,
        out: "",
        err: "error: Syntax at 2\n",
    },
    Row {
        word: "",
        src: "let let = 1;",
        status: REFUSED,
        out: "",
        err: "error: Syntax at 4\n",
    },
    Row {
        word: "",
        src: "f(a); a ?? b",
        status: DONE,
        out: "f(a);\na ?? b;\n",
        err: "",
    },
    Row {
        word: "",
        src: "((a).b)(1, (2)); let x: { [k: string]: (a) => void }[] = (f as T)(1);",
        status: DONE,
        out: "((a).b)(1, (2));\nlet x = (f)(1);\n",
        err: "",
    },
    Row {
        word: "",
        src: "interface f { g<T>(this: f, a?: T): asserts a is T } let k: { [x: string]: (a) => void }[] = <any>f(1)!;",
        status: DONE,
        out: "let k = f(1);\n",
        err: "",
    },
    Row {
        word: "",
        src: "const a = <T>b!.c<U>(null!, 1 satisfies V) as const; declare type W = X; \"s\".t<Y>;",
        status: DONE,
        out: "const a = b.c(null, 1);\n\"s\".t;\n",
        err: "",
    },
    Row {
        word: "",
        src: "let x: number = -a[i as number] * (2 + b!) ** 2 && !c ? typeof d : void 0; this; await (<T>e == f || 1 < 2 as any);",
        status: DONE,
        out: "let x = -a[i] * (2 + b) ** 2 && !c ? typeof d : void 0;\nthis;\nawait (e == f || 1 < 2);\n",
        err: "",
    },
    Row {
        word: "",
        src: "enum E { A =",
        status: REFUSED,
        out: "",
        err: "error: Syntax at 12\n",
    },
];

fn words(alloc: Global, word: &str) -> Result<Vec<RcStr>, AllocError> {
    let mut words = Vec::new(alloc);
    if !word.is_empty() {
        words.push(RcStr::from_str(alloc, word)?)?;
    }
    Ok(words)
}

fn check(rt: &impl Abort, alloc: Global, row: &Row) -> Result<(), AllocError> {
    let words = words(alloc, row.word)?;
    let mut source = SliceSource::new(row.src.as_bytes().to_vec(alloc)?);
    let mut out = VecSink::new(alloc);
    let mut err = VecSink::new(alloc);
    let status = run(alloc, &words, &mut source, &mut out, &mut err);
    assert_eq!(rt; status, row.status, "for {:?}", row.src);
    assert_eq!(rt; out.taken(), row.out.as_bytes());
    assert_eq!(rt; err.taken(), row.err.as_bytes());
    Ok(())
}

#[test]
fn modules_are_converted_or_refused(rt: HostRuntime) -> Result<(), Fail> {
    for row in &ROWS {
        check(&rt, rt.alloc(), row)?;
    }
    Ok(())
}

#[test]
fn imports_and_exports_are_written(rt: HostRuntime) -> Result<(), Fail> {
    for row in &modules::MODULES {
        check(&rt, rt.alloc(), row)?;
    }
    Ok(())
}

#[test]
fn assignments_are_written_or_refused(rt: HostRuntime) -> Result<(), Fail> {
    for row in &assignments::ASSIGNMENTS {
        check(&rt, rt.alloc(), row)?;
    }
    Ok(())
}

/// What comes of a module that imports a type, by these words.
fn with_words(
    alloc: Global,
    words: &[&str],
    out: &mut VecSink,
    err: &mut VecSink,
) -> Result<u8, AllocError> {
    let mut all = Vec::new(alloc);
    for word in words {
        all.push(RcStr::from_str(alloc, word)?)?;
    }
    let src = "import { A } from \"m\"; let x: A;";
    let mut source = SliceSource::new(src.as_bytes().to_vec(alloc)?);
    Ok(run(alloc, &all, &mut source, out, err))
}

#[test]
fn words_come_in_any_order_and_once(rt: HostRuntime) -> Result<(), Fail> {
    let alloc = rt.alloc();
    let rows = [
        (
            ["--no-empty-export", "--preserve-unused"],
            DONE,
            "import \"m\";\nlet x;\n",
            "",
        ),
        (
            ["--preserve-unused", "--no-empty-export"],
            DONE,
            "import \"m\";\nlet x;\n",
            "",
        ),
        (
            ["--verbatim", "--verbatim"],
            BAD_WORD,
            "",
            "error: bad word --verbatim\n",
        ),
        (
            ["--assign=classic", "--assign=esnext"],
            BAD_WORD,
            "",
            "error: bad word --assign=esnext\n",
        ),
        (
            ["--verbatim", "--assign="],
            BAD_WORD,
            "",
            "error: bad word --assign=\n",
        ),
        (
            ["--no-empty-export", "-x"],
            BAD_WORD,
            "",
            "error: bad word -x\n",
        ),
    ];
    for (words, status, text, line) in rows {
        let mut out = VecSink::new(alloc);
        let mut err = VecSink::new(alloc);
        assert_eq!(rt; with_words(alloc, &words, &mut out, &mut err)?, status);
        assert_eq!(rt; out.taken(), text.as_bytes());
        assert_eq!(rt; err.taken(), line.as_bytes());
    }
    Ok(())
}

/// A module, and what is written for it; or the line of its refusal.
struct Case {
    src: &'static str,
    want: &'static str,
}

/// A case as a run.
fn as_run(case: &Case) -> Row {
    let refused = case.want.starts_with("error: ");
    Row {
        word: "",
        src: case.src,
        status: if refused { REFUSED } else { DONE },
        out: if refused { "" } else { case.want },
        err: if refused { case.want } else { "" },
    }
}

#[test]
fn modules_of_all_forms_are_converted_or_refused(rt: HostRuntime) -> Result<(), Fail> {
    let tables = [
        statements::STATEMENTS.as_slice(),
        expressions::EXPRESSIONS.as_slice(),
        refusals::REFUSED.as_slice(),
        names::NAMES.as_slice(),
        texts::TEXTS.as_slice(),
    ];
    for table in tables {
        for case in table {
            check(&rt, rt.alloc(), &as_run(case))?;
        }
    }
    Ok(())
}

/// A session with so many marks left, and what comes of a module then.
fn spent(alloc: Global, left: u32) -> bool {
    let mut session = ecma_tree::Session::new(left);
    let options = Options {
        config: Config::default(),
    };
    let answer = ts_to_js(alloc, &mut session, b"let x: number = f(1);", &options);
    matches!(answer, Err(TsError::Spent))
}

#[test]
fn contexts_are_spent_where_too_few_are_left(rt: HostRuntime) {
    assert!(rt; spent(rt.alloc(), 16));
    assert!(rt; !spent(rt.alloc(), 17));
}

/// A module, and its text without types.
struct Stripped {
    src: &'static str,
    text: &'static str,
}

const STRIPPED: [Stripped; 2] = [
    Stripped {
        src: "a?.b!.c; (<any>a).b; f<T>(x) ; a < b > c; f<T> || g",
        text: "a?.b.c;\n(a).b;\nf(x);\na < b > c;\nf || g;\n",
    },
    Stripped {
        src: r#"import { Logger, type Level } from "./logger";
import type { Store } from "./store";
export interface User { id: number; name?: string }
type Key = string | number;
const cache: Map<Key, User> = new Map<Key, User>();
export class UserService {
    private hits: number = 0;
    static readonly limit = 10 as const;
    find(id: number): User | undefined;
    find(id: Key): User | undefined {
        const hit = cache.get(id);
        if (hit) {
            this.hits++;
            return hit;
        }
        const user = this.store.load(id)!;
        cache.set(id, user as User);
        return user;
    }
    role(user?: User): Role {
        return user?.name === "root" ? Role.Admin : Role.Guest;
    }
}
export const names = <T extends User>(list: T[]): string[] => list.map((u) => u.name ?? "?");
declare const DEBUG: boolean;
if (DEBUG) console.log(Role[Role.Member]);
"#,
        text: r#"import { Logger } from "./logger";
const cache = new Map();
export class UserService {
    hits = 0;
    static limit = 10;
    find(id) {
        const hit = cache.get(id);
        if (hit) {
            this.hits++;
            return hit;
        }
        const user = this.store.load(id);
        cache.set(id, user);
        return user;
    }
    role(user) {
        return user?.name === "root" ? Role.Admin : Role.Guest;
    }
}
export const names = (list) => list.map((u) => u.name ?? "?");
if (DEBUG) console.log(Role[Role.Member]);
"#,
    },
];

/// The text of a module without its types, also where it has forms that the program does not take.
fn text_without_types(alloc: Global, src: &str) -> Result<Vec<u8>, TsError> {
    if src.len() > LIMIT {
        return Err(TsError::TooLong);
    }
    let mut tree = read_module(alloc, src)?;
    strip_type().visit_mut_module(alloc, &mut tree)?;
    Ok(print_module(alloc, &tree)?)
}

// Over the calls that read, strip and print.
#[test]
fn modules_are_stripped(rt: HostRuntime) -> Result<(), Fail> {
    let alloc = rt.alloc();
    for row in &STRIPPED {
        assert_eq!(rt;
            text_without_types(alloc, row.src)?.as_slice(),
            row.text.as_bytes()
        );
    }
    Ok(())
}

/// The status of a run on bytes, and the line that it wrote.
fn refused(rt: &impl Abort, alloc: Global, src: Vec<u8>, line: &str) {
    let mut source = SliceSource::new(src);
    let mut out = VecSink::new(alloc);
    let mut err = VecSink::new(alloc);
    let status = run(alloc, &[], &mut source, &mut out, &mut err);
    assert_eq!(rt; status, REFUSED);
    assert!(rt; out.taken().is_empty());
    assert_eq!(rt; err.taken(), line.as_bytes());
}

/// What is too deep where it stands 600 times, and where.
const DEEP: [(&str, &str); 6] = [
    ("(", "error: TooDeep at 511\n"),
    ("f(", "error: TooDeep at 511\n"),
    ("{", "error: TooDeep at 512\n"),
    ("!", "error: TooDeep at 510\n"),
    ("if(a)", "error: TooDeep at 2558\n"),
    ("function f(){", "error: TooDeep at 6654\n"),
];

#[test]
fn bytes_past_the_limits_are_refused(rt: HostRuntime) -> Result<(), Fail> {
    let alloc = rt.alloc();
    refused(
        &rt,
        alloc,
        vec![in alloc; b' '; LIMIT + 1]?,
        "error: TooLong\n",
    );
    refused(&rt, alloc, vec![in alloc; 0xFF; 1]?, "error: NotUtf8\n");
    for (opening, line) in DEEP {
        let mut deep = Vec::new(alloc);
        for _ in 0..600 {
            deep.extend_from_slice(opening.as_bytes())?;
        }
        refused(&rt, alloc, deep, line);
    }
    Ok(())
}

/// The status of the first row over a source and sinks that fail at these calls.
fn failing(
    alloc: Global,
    source_fails: Vec<u64>,
    out: &mut MemSink,
    err: &mut MemSink,
    src: &str,
) -> Result<u8, AllocError> {
    let mut source = MemSource::new(src.as_bytes().to_vec(alloc)?, source_fails);
    Ok(run(alloc, &[], &mut source, out, err))
}

#[test]
fn faults_are_answered(rt: HostRuntime) -> Result<(), Fail> {
    let alloc = rt.alloc();
    let row = "let x: number = f(1);";
    let mut out = MemSink::new(alloc, Vec::new(alloc));
    let mut err = MemSink::new(alloc, Vec::new(alloc));
    let status = failing(alloc, vec![in alloc; 1]?, &mut out, &mut err, row)?;
    assert_eq!(rt; status, READ_FAULT);

    let mut out = MemSink::new(alloc, vec![in alloc; 1]?);
    let status = failing(alloc, Vec::new(alloc), &mut out, &mut err, row)?;
    assert_eq!(rt; status, WRITE_FAULT);
    assert!(rt; out.taken().is_empty());

    let mut out = MemSink::taking_at_most(alloc, 3, vec![in alloc; 3]?);
    let status = failing(alloc, Vec::new(alloc), &mut out, &mut err, row)?;
    assert_eq!(rt; status, WRITE_FAULT);
    assert_eq!(rt; out.taken(), b"let x ".as_slice());
    Ok(())
}

#[test]
fn the_status_of_a_refusal_stays_where_its_line_fails(rt: HostRuntime) -> Result<(), Fail> {
    let alloc = rt.alloc();
    let mut out = MemSink::new(alloc, Vec::new(alloc));
    let mut err = MemSink::taking_at_most(alloc, 7, vec![in alloc; 2]?);
    let status = failing(alloc, Vec::new(alloc), &mut out, &mut err, "1 2")?;
    assert_eq!(rt; status, REFUSED);
    assert_eq!(rt; err.taken(), b"error: ".as_slice());
    Ok(())
}

#[test]
fn errors_say_why(rt: HostRuntime) -> Result<(), Fail> {
    let alloc = rt.alloc();
    let rows = [
        (TsError::TooLong, "the source is too long"),
        (TsError::NotUtf8, "the source is not UTF-8"),
        (TsError::TooDeep { at: 511 }, "too deep at 511"),
        (TsError::Syntax { at: 12 }, "syntax error at 12"),
        (TsError::Spent, "too few contexts are left"),
        (
            TsError::ExportAssignTwice { at: 12 },
            "a second `export =` at 12",
        ),
        (TsError::NoMemory, "out of memory"),
    ];
    for (error, want) in rows {
        assert_eq!(rt; format!(in alloc; "{error}")?.as_str(), want);
    }
    Ok(())
}

/// An environment of words alone, the first of which is the program's name.
#[derive(Drop)]
struct Arguments<'a> {
    all: &'a [&'a [u8]],
}

impl Env for Arguments<'_> {
    fn arg(&self, i: usize, buf: &mut [u8]) -> Result<usize, FillError> {
        let Some(word) = self.all.get(i) else {
            return Err(FillError::NotPresent);
        };
        if word.len() > buf.len() {
            return Err(FillError::TooLong);
        }
        buf[..word.len()].copy_from_slice(word);
        Ok(word.len())
    }

    fn var(&self, _name: &str, _buf: &mut [u8]) -> Result<usize, FillError> {
        Err(FillError::NotPresent)
    }

    fn var_at(&self, _i: usize, _buf: &mut [u8]) -> Result<usize, FillError> {
        Err(FillError::NotPresent)
    }
}

#[test]
fn the_words_are_those_behind_the_name(rt: HostRuntime) -> Result<(), Fail> {
    let long = "ö".repeat(rt.alloc(), 300)?;
    let all = [
        b"ts_to_js".as_slice(),
        b"--check".as_slice(),
        b"".as_slice(),
        b"a\xFFb".as_slice(),
        long.as_bytes(),
    ];
    let words = ts_to_js::words(&Arguments { all: &all }, rt.alloc())?;
    let want = ["--check", "", "\u{FFFD}", long.as_str()];
    assert_eq!(rt; words.len(), want.len());
    for (word, want) in words.iter().zip(want) {
        assert_eq!(rt; word.as_str(), want);
    }
    Ok(())
}
