//! What holds a statement, or a statement or a module declaration.
//!
//! A statement and an item of a module are one type here, [`Node`]. A node stands for an item of a module: its kind says whether it is a
//! statement or a module declaration. [`Statement`] stands for what is a statement in any case.
ghost use Rattle.std.specs.Prelude.{◌≡◌, Bool, true, Result, Ok, Err, if◌then◌else◌};
ghost use Rattle.std.specs.Borrow.{sem, Lends, LendsIf};
ghost use Rattle.std.specs.Option.{option_copied, option_copied_mut};
ghost use Rattle.std.specs.Result.{result_copied, result_copied_mut};
ghost use Rattle.ecma_tree.specs.contracts.node.Node.{the_row};
ghost use Rattle.ecma_tree.specs.declared.node.Node.{Node};
ghost use Rattle.ecma_utils.specs.Lending.{LendsEither, lent_name};
ghost use Rattle.ecma_utils.specs.Statements.{is_declaration, is_statement, some_if};

use ecma_tree::{ModuleDecl, Node, Sort, Stmt, belongs};

/// A statement, as a type of its own.
#[derive(Debug, Drop)]
pub struct Statement {
    pub node: Stmt,
}

impl From<Stmt> for Statement {
    ghost from_gives = { λ node statement. statement ≡ record { node = node } };

    fn from(node: Stmt) -> Statement {
        Statement { node }
    }
}

fn is_statement(node: &Node) -> bool
    ensures { result ≡ is_statement node.now }
{
    belongs(Sort::Stmt, &node.kind)
}

fn is_declaration(node: &Node) -> bool
    ensures { result ≡ is_declaration node.now }
{
    belongs(Sort::ModuleDecl, &node.kind)
}

/// A node, lent under its own name: as a statement, or else as a module declaration.
fn lent_as(is_statement: bool, node: &mut Node) -> Result<&mut Stmt, &mut ModuleDecl>
    ensures name { lent_name result ≡ node.entry.ghost_name }
    ensures value { result_copied_mut result
        ≡ (if is_statement then Ok node.old else Err node.old) }
{
    if is_statement { Ok(node) } else { Err(node) }
}

/// The same by its kind.
fn lent_item(item: &mut Node) -> Result<&mut Stmt, &mut ModuleDecl>
    ensures name { lent_name result ≡ item.entry.ghost_name }
    ensures value { result_copied_mut result
        ≡ (if is_statement item.old then Ok item.old else Err item.old) }
{
    lent_as(is_statement(item), item)
}

/// What may be a statement. None of the calls takes memory.
pub trait StmtLike: Sized + From<Stmt> {
    /// The node that a value is.
    ghost node: { Self → Node };

    /// The value with another node in its node's place.
    ghost with_node: { Self → Node → Self };

    /// Whether that is a statement.
    ghost is_statement: { Self → Bool };

    /// The statement; `Err` with the value itself exactly where it is none.
    fn try_into_stmt(self) -> Result<Stmt, Self>
        ensures { result ≡ (if is_statement self then Ok (node self) else Err self) };

    /// The statement; `None` exactly where the value is none.
    fn as_stmt(&self) -> Option<&Stmt>
        ensures { option_copied result ≡ some_if (is_statement self.now) (node self.now) };

    /// The node that the value is, to be written: what is written becomes the value's node.
    fn node_mut(&mut self) -> &mut Node
        ensures* writes_back { sem 𝓛 (Lends Self.row the_row self.entry result (with_node self.old)) }
        ensures value { result.now ≡ node self.old };

    /// The statement, to be written: what is written becomes the value's node. `None` exactly where the value is none, and then it stays.
    final fn as_stmt_mut(&mut self) -> Option<&mut Stmt>
        ensures* writes_back { sem 𝓛 (LendsIf Self.row the_row self.entry result (with_node self.old) self.old) }
        ensures value { option_copied_mut result
            ≡ some_if (is_statement self.old) (node self.old) }
    {
        let is_statement = self.as_stmt().is_some();
        if is_statement {
            Some(self.node_mut())
        } else {
            None
        }
    }
}

/// What may be a statement or a module declaration. None of the calls takes memory.
pub trait ModuleItemLike: StmtLike {
    /// The module declaration that a value is, or the value itself.
    ghost declaration: { Self → Result Node Self };

    /// A module declaration as a value, or the declaration itself.
    ghost of_declaration: { Node → Result Self Node };

    /// The module declaration; `Err` with the value itself where it is none.
    fn try_into_module_decl(self) -> Result<ModuleDecl, Self>
        ensures { result ≡ declaration self };

    /// The value that a module declaration is; `Err` with the declaration where values are none.
    fn try_from_module_decl(decl: ModuleDecl) -> Result<Self, ModuleDecl>
        ensures { result ≡ of_declaration decl };
}

/// What is a statement or else a module declaration. None of the calls takes memory.
pub trait StmtOrModuleItem: Sized {
    /// The node that a value is.
    ghost node: { Self → Node };

    /// The value with another node in its node's place.
    ghost with_node: { Self → Node → Self };

    /// Whether that is a statement, and else a module declaration.
    ghost is_statement: { Self → Bool };

    /// The value that a statement is.
    ghost of_stmt: { Node → Self };

    /// A module declaration as a value, or the declaration itself.
    ghost of_declaration: { Node → Result Self Node };

    /// The statement; `Err` with the module declaration exactly where the value is none.
    fn into_stmt(self) -> Result<Stmt, ModuleDecl>
        ensures { result ≡ (if is_statement self then Ok (node self) else Err (node self)) };

    /// The statement; `Err` with the module declaration exactly where the value is none.
    fn as_stmt(&self) -> Result<&Stmt, &ModuleDecl>
        ensures { result_copied result
            ≡ (if is_statement self.now then Ok (node self.now) else Err (node self.now)) };

    /// The statement, to be written; `Err` with the module declaration, to be written, exactly where the value is none. In either case
    /// what is written becomes the value's node.
    fn as_stmt_mut(&mut self) -> Result<&mut Stmt, &mut ModuleDecl>
        ensures* writes_back { sem 𝓛 (LendsEither Self.row the_row self.entry result (with_node self.old)) }
        ensures value { result_copied_mut result
            ≡ (if is_statement self.old then Ok (node self.old) else Err (node self.old)) };

    /// The value that a statement is.
    fn from_stmt(stmt: Stmt) -> Self
        ensures { result ≡ of_stmt stmt };

    /// The value that a module declaration is; `Err` with the declaration where values are none.
    fn try_from_module_decl(decl: ModuleDecl) -> Result<Self, ModuleDecl>
        ensures { result ≡ of_declaration decl };
}

impl StmtLike for Statement {
    ghost node = { λ statement. statement.node };

    ghost with_node = { λ statement node. record statement { node = node } };

    ghost is_statement = { λ _. true };

    fn try_into_stmt(self) -> Result<Stmt, Statement> {
        let Statement { node } = self;
        Ok(node)
    }

    fn as_stmt(&self) -> Option<&Stmt> {
        Some(&self.node)
    }

    fn node_mut(&mut self) -> &mut Node {
        &mut self.node
    }
}

impl StmtLike for Node {
    ghost node = { λ node. node };

    ghost with_node = { λ _ node. node };

    ghost is_statement = { is_statement };

    fn try_into_stmt(self) -> Result<Stmt, Node> {
        if is_statement(&self) {
            Ok(self)
        } else {
            Err(self)
        }
    }

    fn as_stmt(&self) -> Option<&Stmt> {
        if is_statement(self) { Some(self) } else { None }
    }

    fn node_mut(&mut self) -> &mut Node {
        self
    }
}

impl ModuleItemLike for Statement {
    ghost declaration = { λ statement. Err statement };

    ghost of_declaration = { λ decl. Err decl };

    fn try_into_module_decl(self) -> Result<ModuleDecl, Statement> {
        Err(self)
    }

    fn try_from_module_decl(decl: ModuleDecl) -> Result<Statement, ModuleDecl> {
        Err(decl)
    }
}

impl ModuleItemLike for Node {
    ghost declaration = { λ node. if is_declaration node then Ok node else Err node };

    ghost of_declaration = { λ decl. Ok decl };

    fn try_into_module_decl(self) -> Result<ModuleDecl, Node> {
        if is_declaration(&self) {
            Ok(self)
        } else {
            Err(self)
        }
    }

    fn try_from_module_decl(decl: ModuleDecl) -> Result<Node, ModuleDecl> {
        Ok(decl)
    }
}

impl StmtOrModuleItem for Statement {
    ghost node = { λ statement. statement.node };

    ghost with_node = { λ statement node. record statement { node = node } };

    ghost is_statement = { λ _. true };

    ghost of_stmt = { λ node. record { node = node } };

    ghost of_declaration = { λ decl. Err decl };

    fn into_stmt(self) -> Result<Stmt, ModuleDecl> {
        let Statement { node } = self;
        Ok(node)
    }

    fn as_stmt(&self) -> Result<&Stmt, &ModuleDecl> {
        Ok(&self.node)
    }

    fn as_stmt_mut(&mut self) -> Result<&mut Stmt, &mut ModuleDecl> {
        lent_as(true, self.node_mut())
    }

    fn from_stmt(stmt: Stmt) -> Statement {
        Statement { node: stmt }
    }

    fn try_from_module_decl(decl: ModuleDecl) -> Result<Statement, ModuleDecl> {
        Err(decl)
    }
}

impl StmtOrModuleItem for Node {
    ghost node = { λ node. node };

    ghost with_node = { λ _ node. node };

    ghost is_statement = { is_statement };

    ghost of_stmt = { λ node. node };

    ghost of_declaration = { λ decl. Ok decl };

    fn into_stmt(self) -> Result<Stmt, ModuleDecl> {
        if is_statement(&self) {
            Ok(self)
        } else {
            Err(self)
        }
    }

    fn as_stmt(&self) -> Result<&Stmt, &ModuleDecl> {
        if is_statement(self) {
            Ok(self)
        } else {
            Err(self)
        }
    }

    fn as_stmt_mut(&mut self) -> Result<&mut Stmt, &mut ModuleDecl> {
        lent_item(self)
    }

    fn from_stmt(stmt: Stmt) -> Node {
        stmt
    }

    fn try_from_module_decl(decl: ModuleDecl) -> Result<Node, ModuleDecl> {
        Ok(decl)
    }
}
