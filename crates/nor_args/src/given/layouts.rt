//! The layout that the options give.
ghost use Rattle.std.specs.Prelude.{◌≡◌, option_map};
ghost use Rattle.nor_args.specs.Given.{gives_layout, layout_file, layout_form};

use crate::given::Given;
use crate::job::LayoutForm;

impl<'a> Given<'a> {
    ghost use Rattle.nor_args.specs.Given.{texts_of};

    pub(super) fn layout_file(&self) -> Option<&'a str>
        ensures { option_map (λ file. file.now) result ≡ layout_file (texts_of self.now) }
    {
        match (self.layout, self.fmap_file) {
            (Some(file), _) => Some(file),
            (None, Some(file)) => Some(file),
            (None, None) => self.ifd_file,
        }
    }

    pub(super) fn gives_layout(&self) -> bool
        ensures { result ≡ gives_layout (texts_of self.now) }
    {
        self.layout_file().is_some() || self.fmap || self.ifd
    }

    // The result has a meaning only if exactly one layout is given.
    pub(super) fn layout_form(&self) -> LayoutForm
        ensures { result ≡ layout_form (texts_of self.now) }
    {
        if self.layout.is_some() {
            if self.is_hardware {
                LayoutForm::Words
            } else {
                LayoutForm::Lines
            }
        } else if self.fmap_file.is_some() || self.fmap {
            LayoutForm::Fmap
        } else {
            LayoutForm::Descriptor
        }
    }
}
