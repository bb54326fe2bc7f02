//! Contexts that are drawn of a session.
ghost use Rattle.std.specs.Prelude.{◌≡◌, ◌≤◌};
ghost use Rattle.ts_to_js.specs.Conversion.{with_left};

use ecma_tree::Session;

/// Draws contexts of a session until so many are left.
pub(crate) fn draw_to(session: &mut Session, left: u32)
    requires { left ≤ session.old.left }
    ensures { session.new ≡ with_left left session.old }
{
    let count = session.left() - left;
    for _i in 0..count {
        let Ok(_mark) = session.fresh_mark() else {
            unreachable!()
        };
    }
}
