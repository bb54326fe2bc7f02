//! How a name is declared, and what is looked for when declarations are gathered.
use ecma_tree::JsWord;

/// How a name is declared.
#[derive(Clone, Copy, Debug, PartialEq, Eq)]
pub enum Form {
    /// An import.
    Import,
    /// `let`, `const`, or `import a = ..`.
    Lexical,
    Class,
    Function,
    Enum,
    Namespace,
    /// `var`.
    Var,
    /// A parameter of a function.
    Parameter,
    /// A name that `catch` declares.
    Catch,
    /// The name that a function or a class as an expression has inside itself.
    Own,
    /// A member of an enum.
    Member,
    /// An enum or a namespace that adds to a class, function, enum or namespace of its name before it.
    Merged,
}

/// A declared name: its text, how it is declared, and whether it is a value that stays in the output.
#[derive(Debug, Drop)]
pub struct Declaration {
    pub sym: JsWord,
    pub form: Form,
    pub stays: bool,
}

/// A declaration, and where its name stands in the text.
#[derive(Debug, Drop)]
pub(crate) struct Located {
    pub(crate) declaration: Declaration,
    /// The byte offset of the name, from 0 on.
    pub(crate) at: u32,
}

/// Which declarations are looked for in a node.
#[derive(Clone, Copy, Debug)]
pub enum Part {
    /// Those of the scope that the node opens, but for its `var` names.
    Scope,
    /// Those of an item of a list of statements.
    Item,
    /// Those of the default export.
    Default,
    /// The members of an enum.
    Member,
    /// The `var` names in it.
    Var,
    /// Its names, as a pattern that declares them.
    Name(Form),
}

/// What is looked for in a node, and whether it stays where nothing inside says that it does not.
#[derive(Clone, Copy, Debug)]
pub struct Sought {
    pub part: Part,
    pub stays: bool,
}
