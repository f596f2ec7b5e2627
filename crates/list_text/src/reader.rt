// Where in a text it is read on, and why it cannot be.
ghost use Rattle.list_text.specs.Place.{Inside};

use networks::Fault;

// A place in a text that is not too long.
#[derive(Clone, Copy)]
pub struct Reader<'a> {
    pub text: &'a [u8],
    pub at: usize,
    ghost inside: { Inside text.now at },
}

// Nothing that is list text stands there: the place from which on it cannot be read.
#[derive(Clone, Copy, Debug, PartialEq, Eq)]
pub struct Misread {
    pub place: usize,
}

impl From<Misread> for Fault {
    ghost use Rattle.std.specs.Prelude.{◌≡◌};
    ghost use Rattle.networks.specs.declared.fault.Fault.TheVariants.{Text};

    ghost from_gives = { λ m f. f ≡ Text m.place };

    fn from(m: Misread) -> Fault {
        Fault::Text(m.place)
    }
}
