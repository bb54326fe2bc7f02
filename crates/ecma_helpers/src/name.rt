//! Which helpers there are.
ghost use Rattle.std.specs.Prelude.{◌≡◌, ◌<◌};
ghost use Rattle.ecma_helpers.specs.Names.{slot_of, source_of, text_of};

/// A function that lowered code calls, and that a module imports.
#[derive(Clone, Copy, Debug, PartialEq, Eq)]
pub enum HelperName {
    /// `_get(p, k, t)`: the member `k`, looked up from the prototype `p`, with the receiver `t`.
    Get,
    /// `_get_prototype_of(o)`: the prototype of `o`.
    GetPrototypeOf,
    /// `_set(p, k, v, t, true)`: `v`, which is set as the member `k`, looked up from the prototype `p`, with the receiver `t`.
    Set,
    /// `_update(p, k, t, true)`: a reference, whose member `_` reads and sets the member `k`.
    Update,
    /// `_assert_this_initialized(v)`: `v`, which has to be there.
    AssertThisInitialized,
}

/// The slot of a session that a helper has.
pub(crate) fn slot_of(name: HelperName) -> usize
    ensures value { result ≡ slot_of name }
    ensures within { result < 5 }
{
    match name {
        HelperName::Get => 0,
        HelperName::GetPrototypeOf => 1,
        HelperName::Set => 2,
        HelperName::Update => 3,
        HelperName::AssertThisInitialized => 4,
    }
}

/// The text of a helper's name, before it is told apart from others.
pub(crate) fn text_of(name: HelperName) -> &'static str
    ensures { result.now ≡ text_of name }
{
    match name {
        HelperName::Get => "_get",
        HelperName::GetPrototypeOf => "_get_prototype_of",
        HelperName::Set => "_set",
        HelperName::Update => "_update",
        HelperName::AssertThisInitialized => "_assert_this_initialized",
    }
}

/// The module that a helper is imported from.
pub(crate) fn source_of(name: HelperName) -> &'static str
    ensures { result.now ≡ source_of name }
{
    match name {
        HelperName::Get => "@swc/helpers/_/_get",
        HelperName::GetPrototypeOf => "@swc/helpers/_/_get_prototype_of",
        HelperName::Set => "@swc/helpers/_/_set",
        HelperName::Update => "@swc/helpers/_/_update",
        HelperName::AssertThisInitialized => "@swc/helpers/_/_assert_this_initialized",
    }
}
