//! What holds of all texts.

ghost use Rattle.std.specs.Prelude.{◌≡◌, List, Some};
ghost use Rattle.otel_prometheus.specs.declared.text.formats.Format.{Format};
ghost use Rattle.otel_prometheus.specs.Lines.{Line, IsText, text_of};
ghost use Rattle.otel_prometheus.specs.Reading.{read};

/// The text of lines reads as these lines, whatever their help texts, their values and the values of their labels are.
/// This function does nothing: who needs the law calls it first.
pub fn reads_back()
    ensures { (format : Format) (lines : List Line) → IsText lines → read (text_of format lines) ≡ Some lines }
{}
