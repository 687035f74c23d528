//! How a listing is written.
ghost use Rattle.std.specs.Prelude.{◌≡◌};
ghost use Rattle.explain_list.specs.Listing.{is_written, tells_refusal};

use explain_text::Form;
use script_steps::Response;

/// How a listing is written.
#[derive(Clone, Copy)]
pub struct Layout {
    pub form: Form,
    /// Whether only refused statements are listed.
    pub only_refused: bool,
}

/// Whether an answer is a refusal.
fn tells_refusal(told: &Option<(u32, Response)>) -> bool
    ensures { result ≡ tells_refusal told.now }
{
    match told {
        Some((_, response)) => response.is_refused(),
        None => false,
    }
}

/// Whether a page with this answer, if any, is listed.
pub(crate) fn is_written(layout: Layout, told: &Option<(u32, Response)>) -> bool
    ensures { result ≡ is_written layout told.now }
{
    !layout.only_refused || tells_refusal(told)
}
