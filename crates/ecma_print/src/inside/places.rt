//! A node in its place.
ghost use Rattle.std.specs.Prelude.{◌≡◌};
ghost use Rattle.ecma_print.specs.Laid.{is_computed};
ghost use Rattle.ecma_print.specs.Functions.{function_head, method_head};
ghost use Rattle.ecma_print.specs.Layout.{key_mark};

use super::Inside;
use crate::out::Out;
use crate::place::{Between, Place, Spot};
use ecma_tree::{Kind, NoMemory, Node};

fn is_computed_kind(kind: &Kind) -> bool
    ensures { result ≡ is_computed kind.now }
{
    matches!(kind, Kind::ComputedPropName)
}

/// What stands between an object and its key.
fn key_mark(optional: bool, computed: bool) -> &'static str
    ensures { result.now ≡ key_mark optional computed }
{
    match (optional, computed) {
        (true, _) => "?.",
        (false, true) => "",
        (false, false) => ".",
    }
}

/// What stands before the name of a function.
fn function_head(kind: &Kind) -> &'static str
    ensures { result.now ≡ function_head kind.now }
{
    let Kind::Function {
        is_generator,
        is_async,
    } = kind
    else {
        return "";
    };
    match (*is_generator, *is_async) {
        (false, false) => "function",
        (true, false) => "function*",
        (false, true) => "async function",
        (true, true) => "async function*",
    }
}

/// What stands before the name of a method.
fn method_head(kind: &Kind) -> &'static str
    ensures { result.now ≡ method_head kind.now }
{
    let Kind::Function {
        is_generator,
        is_async,
    } = kind
    else {
        return "";
    };
    match (*is_generator, *is_async) {
        (false, false) => "",
        (true, false) => "*",
        (false, true) => "async ",
        (true, true) => "async *",
    }
}

impl<'f, 'n, F: Fn(&mut Out, &Node, Place, &[u8]) -> Result<(), NoMemory>> Inside<'f, 'n, F> {
    ghost use Rattle.std.specs.Prelude.{OnOk};
    ghost use Rattle.ecma_tree.specs.declared.node.Node.{out-Node};
    ghost use Rattle.ecma_print.specs.Pieces.{nothing};
    ghost use Rattle.ecma_print.specs.Places.{before, after};
    ghost use Rattle.ecma_print.specs.Layout.{children_of, whole, standing, placed};
    ghost use Rattle.ecma_print.specs.Writing.{Puts, ShowsChildren};

    /// What stands before a child that is there.
    fn before(&self, out: &mut Out, between: Between) -> Result<(), NoMemory>
        ensures { OnOk result (Puts out.old out.new self.now.margin.now (before between)) }
    {
        match between {
            Between::Blank => self.say(out, " "),
            Between::Equals => self.say(out, " = "),
            Between::Extends => self.say(out, " extends "),
            Between::From => self.say(out, " from "),
            Between::As => self.say(out, " as "),
            Between::BeforeAs => Ok(()),
            Between::Attributes => self.say(out, " with "),
            Between::Finally => self.say(out, " finally "),
            Between::Else => self.say(out, " else "),
            Between::LineElse => {
                self.new_line(out)?;
                self.say(out, "else ")
            }
            Between::Parentheses => self.say(out, " ("),
        }
    }

    /// What stands after it.
    fn after(&self, out: &mut Out, between: Between) -> Result<(), NoMemory>
        ensures { OnOk result (Puts out.old out.new self.now.margin.now (after between)) }
    {
        match between {
            Between::BeforeAs => self.say(out, " as "),
            Between::Parentheses => self.say(out, ")"),
            _ => Ok(()),
        }
    }

    /// Nothing, for a node that has no text of its own.
    fn no_text(&self, _out: &mut Out) -> Result<(), NoMemory>
        ensures { OnOk result (Puts _out.old _out.new self.now.margin.now nothing) }
    {
        Ok(())
    }

    /// A node that is no list, by itself.
    fn whole(&self, out: &mut Out, spot: Spot) -> Result<(), NoMemory>
        requires { ShowsChildren F.Fn self.now }
        ensures { OnOk result (Puts out.old out.new self.now.margin.now (whole (out-Node self.now.node.now).kind (children_of self.now) spot)) }
    {
        match &self.node.kind {
            Kind::Ident { .. }
            | Kind::IdentName { .. }
            | Kind::PrivateName { .. }
            | Kind::Str { .. }
            | Kind::Bool { .. }
            | Kind::Null
            | Kind::Number { .. }
            | Kind::BigInt { .. }
            | Kind::Regex { .. }
            | Kind::TplElement { .. } => self.literal(out),
            Kind::UnaryExpr { .. }
            | Kind::UpdateExpr { .. }
            | Kind::BinExpr { .. }
            | Kind::AssignExpr { .. }
            | Kind::CondExpr
            | Kind::SeqExpr
            | Kind::YieldExpr { .. }
            | Kind::AwaitExpr => self.operation(out, spot),
            Kind::MemberExpr
            | Kind::SuperPropExpr
            | Kind::CallExpr
            | Kind::NewExpr
            | Kind::OptChainExpr { .. }
            | Kind::OptCall
            | Kind::Tpl
            | Kind::TaggedTpl => self.link(out, spot),
            Kind::ThisExpr
            | Kind::Super
            | Kind::Import
            | Kind::MetaPropExpr { .. }
            | Kind::ParenExpr
            | Kind::SpreadElement
            | Kind::ArrayLit
            | Kind::ObjectLit => self.primary(out),
            Kind::FnExpr
            | Kind::FnDecl { .. }
            | Kind::Function { .. }
            | Kind::ArrowExpr { .. }
            | Kind::ClassExpr
            | Kind::ClassDecl { .. }
            | Kind::Class { .. } => self.function_text(out, spot),
            Kind::Constructor { .. }
            | Kind::ClassMethod { .. }
            | Kind::PrivateMethod { .. }
            | Kind::ClassProp { .. }
            | Kind::PrivateProp { .. }
            | Kind::StaticBlock => self.class_member(out),
            Kind::KeyValueProp
            | Kind::AssignProp
            | Kind::GetterProp
            | Kind::SetterProp
            | Kind::MethodProp
            | Kind::ComputedPropName => self.property(out, spot),
            Kind::BindingIdent
            | Kind::Param
            | Kind::TsParamProp { .. }
            | Kind::ArrayPat { .. }
            | Kind::ObjectPat { .. }
            | Kind::RestPat
            | Kind::AssignPat
            | Kind::KeyValuePatProp
            | Kind::AssignPatProp => self.pattern(out),
            Kind::ExprStmt
            | Kind::BlockStmt
            | Kind::EmptyStmt
            | Kind::DebuggerStmt
            | Kind::ReturnStmt
            | Kind::ThrowStmt
            | Kind::BreakStmt
            | Kind::ContinueStmt
            | Kind::LabeledStmt
            | Kind::VarDecl { .. }
            | Kind::VarDeclarator { .. } => self.statement(out, spot),
            Kind::IfStmt
            | Kind::SwitchStmt
            | Kind::SwitchCase
            | Kind::TryStmt
            | Kind::CatchClause
            | Kind::WhileStmt
            | Kind::DoWhileStmt
            | Kind::ForStmt
            | Kind::ForInStmt
            | Kind::ForOfStmt { .. } => self.control(out),
            Kind::Module { .. }
            | Kind::Script { .. }
            | Kind::ImportDecl { .. }
            | Kind::ImportNamedSpecifier { .. }
            | Kind::ImportDefaultSpecifier
            | Kind::ImportStarAsSpecifier
            | Kind::TsImportEqualsDecl { .. }
            | Kind::TsExternalModuleRef
            | Kind::TsQualifiedName => self.importing(out),
            Kind::ExportDecl
            | Kind::NamedExport { .. }
            | Kind::ExportNamedSpecifier { .. }
            | Kind::ExportDefaultSpecifier
            | Kind::ExportNamespaceSpecifier
            | Kind::ExportDefaultDecl
            | Kind::ExportDefaultExpr
            | Kind::ExportAll { .. }
            | Kind::TsExportAssignment => self.exporting(out),
            Kind::Absent
            | Kind::List
            | Kind::TsTypeAssertion
            | Kind::TsConstAssertion
            | Kind::TsNonNullExpr
            | Kind::TsAsExpr
            | Kind::TsInstantiation
            | Kind::TsSatisfiesExpr
            | Kind::TsIndexSignature { .. }
            | Kind::TsInterfaceDecl { .. }
            | Kind::TsTypeAliasDecl { .. }
            | Kind::TsEnumDecl { .. }
            | Kind::TsEnumMember
            | Kind::TsModuleDecl { .. }
            | Kind::TsModuleBlock
            | Kind::TsNamespaceDecl { .. }
            | Kind::TsNamespaceExportDecl
            | Kind::TsTypeAnn
            | Kind::TsType
            | Kind::TsTypeParamDecl
            | Kind::TsTypeParamInstantiation => self.no_text(out),
        }
    }

    /// In parentheses where its spot asks for them.
    fn standing(&self, out: &mut Out, spot: Spot) -> Result<(), NoMemory>
        requires { ShowsChildren F.Fn self.now }
        ensures { OnOk result (Puts out.old out.new self.now.margin.now (standing (out-Node self.now.node.now).kind (children_of self.now) spot)) }
    {
        if self.in_parentheses(spot) {
            self.say(out, "(")?;
            self.whole(out, Spot::alone())?;
            return self.say(out, ")");
        }
        self.whole(out, spot)
    }

    /// A node that is there and no list, in its place.
    pub(crate) fn placed(&self, out: &mut Out, place: Place) -> Result<(), NoMemory>
        requires { ShowsChildren F.Fn self.now }
        ensures { OnOk result (Puts out.old out.new self.now.margin.now (placed (out-Node self.now.node.now).kind (children_of self.now) place)) }
    {
        let kind = &self.node.kind;
        match place {
            Place::At(spot) => self.standing(out, spot),
            Place::Within(between, spot) => {
                self.before(out, between)?;
                self.standing(out, spot)?;
                self.after(out, between)
            }
            Place::Key(optional) => {
                self.say(out, key_mark(optional, is_computed_kind(kind)))?;
                self.whole(out, Spot::alone())
            }
            Place::FunctionHead => self.say(out, function_head(kind)),
            Place::MethodHead => self.say(out, method_head(kind)),
            _ => Ok(()),
        }
    }
}
