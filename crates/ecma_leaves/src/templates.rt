//! Text parts of templates (ECMAScript, 12.9.6), without what stands around them.
ghost use Rattle.std.specs.Prelude.{◌≡◌, ◌^◌, ◌<◌, length};
ghost use Rattle.ecma_leaves.specs.Words.{stands_in_template};

use ecma_lex::template_characters_end;

/// Whether a text may stand in a template as one of its text parts: it holds no end of one, and ill-formed escapes only behind a tag.
pub(crate) fn stands_in_template(text: &str, tagged: bool) -> bool
    requires { length text.now < 2 ^ 32 }
    ensures { result ≡ stands_in_template tagged text.now }
{
    template_characters_end(text, 0, tagged) as usize == text.len()
}
