//! Who is shown how far a file has come.
use file_copy::Observer;

/// Whoever is shown how far a file has come. What it is shown in a copy, it gets as the copy's
/// [`Observer`].
pub trait ProgressSink: Observer {
    /// The copy of a file of this name begins at this moment.
    fn begin(&mut self, name: &str, moment: u64);

    /// The copy has ended: what was shown is taken away.
    fn end(&mut self);

    /// Lines of the text of this name end in CR LF, of which the CRs are kept.
    fn report_returns(&mut self, name: &str);
}
