//! Lines that add documents, read without a cut: most lines of a long script are such.

ghost use Rattle.std.specs.Prelude.{◌≡◌, IfSome, Some};
ghost use Rattle.qm_postings.specs.Document.{words_of};
ghost use Rattle.qm_script.specs.Script.{add_document, line_request};

/// What stands behind `doc`, where the line begins with that and a space, and has no tab. Other lines
/// may add documents too.
pub(crate) fn document_text(line: &str) -> Option<&str>
    ensures { IfSome result (λ text. line_request line.now ≡ Some (add_document (words_of text.now))) }
{
    let text = line.strip_prefix("doc ")?;
    if text.contains('\t') {
        return None;
    }
    Some(text)
}
