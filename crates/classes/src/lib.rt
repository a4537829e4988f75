// The class of a byte, read from one table of 256 classes (document 01, "The declarations").
// Whatever asks for a byte's class goes through it: names and tokens. (The crate `values` tells the digits of a value by range.)

#![tactic(auto)]

ghost use Rattle.std.specs.Prelude.{◌≡◌};
ghost use Rattle.document.specs.Classes.{class_of, is_letter, is_blank, is_name_byte};
ghost use Rattle.classes.specs.Numbers.{number};

use Class::{
    AtSign, Bar, Blank, Closing, Colon, Digit, Letter, Opening, Other, Plus, Star, Underscore,
};

// The classes, by their numbers: those of the marks stand together.
#[derive(Clone, Copy, Debug, PartialEq, Eq)]
pub enum Class {
    Letter,
    Digit,
    Underscore,
    Blank,
    Opening,
    Closing,
    Colon,
    Bar,
    Star,
    Plus,
    AtSign,
    Other,
}

impl Class {
    pub fn number(self) -> u8
        ensures { result ≡ number self }
    {
        self as u8
    }
}

static CLASSES: [Class; 256] = [
    Other, Other, Other, Other, Other, Other, Other, Other, Other, Blank, Blank, Other, Other,
    Blank, Other, Other, Other, Other, Other, Other, Other, Other, Other, Other, Other, Other,
    Other, Other, Other, Other, Other, Other, Blank, Other, Other, Other, Other, Other, Other,
    Other, Opening, Closing, Star, Plus, Other, Other, Other, Other, Digit, Digit, Digit, Digit,
    Digit, Digit, Digit, Digit, Digit, Digit, Colon, Other, Other, Other, Other, Other, AtSign,
    Letter, Letter, Letter, Letter, Letter, Letter, Letter, Letter, Letter, Letter, Letter, Letter,
    Letter, Letter, Letter, Letter, Letter, Letter, Letter, Letter, Letter, Letter, Letter, Letter,
    Letter, Letter, Other, Other, Other, Other, Underscore, Other, Letter, Letter, Letter, Letter,
    Letter, Letter, Letter, Letter, Letter, Letter, Letter, Letter, Letter, Letter, Letter, Letter,
    Letter, Letter, Letter, Letter, Letter, Letter, Letter, Letter, Letter, Letter, Other, Bar,
    Other, Other, Other, Other, Other, Other, Other, Other, Other, Other, Other, Other, Other,
    Other, Other, Other, Other, Other, Other, Other, Other, Other, Other, Other, Other, Other,
    Other, Other, Other, Other, Other, Other, Other, Other, Other, Other, Other, Other, Other,
    Other, Other, Other, Other, Other, Other, Other, Other, Other, Other, Other, Other, Other,
    Other, Other, Other, Other, Other, Other, Other, Other, Other, Other, Other, Other, Other,
    Other, Other, Other, Other, Other, Other, Other, Other, Other, Other, Other, Other, Other,
    Other, Other, Other, Other, Other, Other, Other, Other, Other, Other, Other, Other, Other,
    Other, Other, Other, Other, Other, Other, Other, Other, Other, Other, Other, Other, Other,
    Other, Other, Other, Other, Other, Other, Other, Other, Other, Other, Other, Other, Other,
    Other, Other, Other, Other, Other, Other, Other, Other, Other, Other, Other, Other, Other,
    Other,
];

pub fn class_of(b: u8) -> Class
    ensures { number result ≡ class_of b }
{
    CLASSES[usize::from(b)]
}

pub fn is_letter(b: u8) -> bool
    ensures { result ≡ is_letter b }
{
    class_of(b) == Letter
}

pub fn is_blank(b: u8) -> bool
    ensures { result ≡ is_blank b }
{
    class_of(b) == Blank
}

pub fn is_name_byte(b: u8) -> bool
    ensures { result ≡ is_name_byte b }
{
    matches!(class_of(b), Letter | Digit | Underscore)
}
