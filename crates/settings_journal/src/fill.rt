/// A source that fills a flash with the contents of a chip.
pub trait Fill<F> {
    /// The relation between the flash before and after.
    ghost post: { Self → F → F → Type 0 };

    /// Fills the flash.
    fn fill(&self, flash: &mut F)
        ensures { post self.now flash.old flash.new };
}
