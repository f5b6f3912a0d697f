ghost use Rattle.std.specs.Prelude.{List, ◌≡◌, ℕ, Some};
ghost use Rattle.refusal.specs.Refusals.{formatter_number, formatter_name, matcher_number, matcher_name, either_number, either_layer, either_name, deep_number, deep_name, closing_bytes, parting_byte, side_name, layer_name, carried, of_template, joint_formatter, joint_matcher, part_at};
ghost use Rattle.refusal.specs.declared.error.Layer.{Layer};
ghost use Rattle.refusal.specs.declared.error.Layer.TheVariants.{Template, Matcher};

use std::fmt;

// The part of the product that refuses.
#[derive(Clone, Copy, Debug, PartialEq, Eq)]
pub enum Layer {
    Template,
    Matcher,
    Pattern,
    Book,
    Print,
}

// The texts of layers, marks and sides are promised byte for byte; of what a derived `Debug` writes nothing is known.
impl Layer {
    pub fn name(self) -> &'static str
        ensures { result.now ≡ layer_name self }
    {
        match self {
            Layer::Template => "template",
            Layer::Matcher => "matcher",
            Layer::Pattern => "pattern",
            Layer::Book => "book",
            Layer::Print => "print",
        }
    }
}

impl fmt::Display for Layer {
    ghost output = { λ x. Some (layer_name x) };

    fn fmt<W: fmt::Write>(&self, f: &mut fmt::Formatter<W>) -> fmt::Result {
        f.write_str(self.name())
    }
}

// A part of a text that is at fault, by place and length in bytes, and what is wrong with it.
#[derive(Clone, Copy, Debug, PartialEq, Eq)]
pub struct ParseError<K> {
    pub place: usize,
    pub length: usize,
    pub kind: K,
}

impl<K> ParseError<K> {
    // What is wrong with so many bytes from a place on.
    pub fn new(kind: K, place: usize, length: usize) -> ParseError<K>
        ensures { result ≡ part_at kind place length }
    {
        ParseError {
            place,
            length,
            kind,
        }
    }

    // The same part with what is wrong told in another way.
    pub fn with<L>(&self, kind: L) -> ParseError<L>
        ensures { result ≡ part_at kind self.now.place self.now.length }
    {
        ParseError::new(kind, self.place, self.length)
    }
}

// What a refusal says of itself: its number, its name and the layer that it belongs to.
#[derive(Clone, Copy, Debug, PartialEq, Eq)]
pub struct Told {
    pub number: u8,
    pub name: &'static str,
    pub layer: Layer,
}

impl Told {
    pub fn new(number: u8, name: &'static str, layer: Layer) -> Told
        ensures number { result.number ≡ number }
        ensures name { result.name.now ≡ name.now }
        ensures layer { result.layer ≡ layer }
    {
        Told {
            number,
            name,
            layer,
        }
    }
}

// A kind of refusal.
pub trait Refusal {
    ghost numbered: { Self → ℕ };

    ghost named: { Self → List ℕ };

    ghost within: { Self → Layer };

    fn told(&self) -> Told
        ensures number { result.number ≡ numbered self.now }
        ensures name { result.name.now ≡ named self.now }
        ensures layer { result.layer ≡ within self.now };

    fn number(&self) -> u8
        ensures { result ≡ numbered self.now }
    {
        self.told().number
    }

    fn name(&self) -> &'static str
        ensures { result.now ≡ named self.now }
    {
        self.told().name
    }

    fn layer(&self) -> Layer
        ensures { result ≡ within self.now }
    {
        self.told().layer
    }
}

// What is wrong with a part of a text is told by its kind.
impl<K: Refusal> Refusal for ParseError<K> {
    ghost numbered = { λ e. K.numbered e.kind };

    ghost named = { λ e. K.named e.kind };

    ghost within = { λ e. K.within e.kind };

    fn told(&self) -> Told {
        self.kind.told()
    }
}

// A mark that closes a prefix, a suffix or a control.
#[derive(Clone, Copy, Debug, PartialEq, Eq)]
pub enum ClosingMark {
    Dollar,
    Square,
    Round,
    Curly,
}

impl ClosingMark {
    pub fn text(self) -> &'static str
        ensures { result.now ≡ closing_bytes self }
    {
        match self {
            ClosingMark::Dollar => "$",
            ClosingMark::Square => "]$",
            ClosingMark::Round => ")$",
            ClosingMark::Curly => "}$",
        }
    }
}

impl fmt::Display for ClosingMark {
    ghost output = { λ x. Some (closing_bytes x) };

    fn fmt<W: fmt::Write>(&self, f: &mut fmt::Formatter<W>) -> fmt::Result {
        f.write_str(self.text())
    }
}

// A mark that parts the numbers of a pair, the powers of a repeat or its separators.
#[derive(Clone, Copy, Debug, PartialEq, Eq)]
pub enum PartingMark {
    Comma,
    Bar,
}

impl PartingMark {
    pub fn text(self) -> &'static str
        ensures { result.now ≡ parting_byte self }
    {
        match self {
            PartingMark::Comma => ",",
            PartingMark::Bar => "|",
        }
    }
}

impl fmt::Display for PartingMark {
    ghost output = { λ x. Some (parting_byte x) };

    fn fmt<W: fmt::Write>(&self, f: &mut fmt::Formatter<W>) -> fmt::Result {
        f.write_str(self.text())
    }
}

// What is wrong with a template.
#[derive(Clone, Copy, Debug, PartialEq, Eq)]
pub enum FormatterError {
    MissingHash,
    MissingRange,
    MissingControl(ClosingMark),
    TooManyControl(PartingMark),
    TooManyChildren,
    UnexpectedPair,
    IncorrectControl,
    InvalidNumber,
    CaptureOverflow,
    NumberOutOfRange,
    TooManyPieces,
    TemplateTooLong,
}

impl Refusal for FormatterError {
    ghost numbered = { formatter_number };

    ghost named = { formatter_name };

    ghost within = { λ _. Template };

    fn told(&self) -> Told {
        match *self {
            FormatterError::MissingHash => Told::new(1, "MissingHash", Layer::Template),
            FormatterError::MissingRange => Told::new(2, "MissingRange", Layer::Template),
            FormatterError::MissingControl(_) => Told::new(3, "MissingControl", Layer::Template),
            FormatterError::TooManyControl(_) => Told::new(4, "TooManyControl", Layer::Template),
            FormatterError::TooManyChildren => Told::new(5, "TooManyChildren", Layer::Template),
            FormatterError::UnexpectedPair => Told::new(6, "UnexpectedPair", Layer::Template),
            FormatterError::IncorrectControl => Told::new(7, "IncorrectControl", Layer::Template),
            FormatterError::InvalidNumber => Told::new(8, "InvalidNumber", Layer::Template),
            FormatterError::CaptureOverflow => Told::new(9, "CaptureOverflow", Layer::Template),
            FormatterError::NumberOutOfRange => Told::new(16, "NumberOutOfRange", Layer::Template),
            FormatterError::TooManyPieces => Told::new(17, "TooManyPieces", Layer::Template),
            FormatterError::TemplateTooLong => Told::new(18, "TemplateTooLong", Layer::Template),
        }
    }
}

// What is wrong with a matcher.
#[derive(Clone, Copy, Debug, PartialEq, Eq)]
pub enum MatcherError {
    InvalidChildrenSpec,
    MatcherTooLong,
}

impl Refusal for MatcherError {
    ghost numbered = { matcher_number };

    ghost named = { matcher_name };

    ghost within = { λ _. Matcher };

    fn told(&self) -> Told {
        match *self {
            MatcherError::InvalidChildrenSpec => Told::new(
                10,
                "InvalidChildrenSpec",
                Layer::Matcher,
            ),
            MatcherError::MatcherTooLong => Told::new(19, "MatcherTooLong", Layer::Matcher),
        }
    }
}

// What is wrong with a definition: its matcher, its template, or the two together.
#[derive(Clone, Copy, Debug, PartialEq, Eq)]
pub enum EitherError {
    Formatter(FormatterError),
    Matcher(MatcherError),
    InvalidCapture,
}

impl Refusal for EitherError {
    ghost numbered = { either_number };

    ghost named = { either_name };

    ghost within = { either_layer };

    fn told(&self) -> Told {
        match *self {
            EitherError::Formatter(e) => e.told(),
            EitherError::Matcher(e) => e.told(),
            EitherError::InvalidCapture => Told::new(11, "InvalidCapture", Layer::Book),
        }
    }
}

impl From<ParseError<FormatterError>> for ParseError<EitherError> {
    ghost from_gives = { λ e r. r ≡ joint_formatter e };

    fn from(e: ParseError<FormatterError>) -> ParseError<EitherError> {
        e.with(EitherError::Formatter(e.kind))
    }
}

impl From<ParseError<MatcherError>> for ParseError<EitherError> {
    ghost from_gives = { λ e r. r ≡ joint_matcher e };

    fn from(e: ParseError<MatcherError>) -> ParseError<EitherError> {
        e.with(EitherError::Matcher(e.kind))
    }
}

// The separator of a repeat.
#[derive(Clone, Copy, Debug, PartialEq, Eq)]
pub enum Side {
    Left,
    Middle,
    Right,
}

impl Side {
    pub fn name(self) -> &'static str
        ensures { result.now ≡ side_name self }
    {
        match self {
            Side::Left => "left",
            Side::Middle => "middle",
            Side::Right => "right",
        }
    }
}

impl fmt::Display for Side {
    ghost output = { λ x. Some (side_name x) };

    fn fmt<W: fmt::Write>(&self, f: &mut fmt::Formatter<W>) -> fmt::Result {
        f.write_str(self.name())
    }
}

// A fault of a separator, placed in the halved separator, with the repeat's number among the pieces and the side.
#[derive(Clone, Copy, Debug, PartialEq, Eq)]
pub struct InSeparator {
    pub piece: usize,
    pub side: Side,
    pub fault: ParseError<FormatterError>,
}

// What is wrong with a template whose separators are read too.
#[derive(Clone, Copy, Debug, PartialEq, Eq)]
pub enum DeepError {
    Formatter(FormatterError),
    Separator(InSeparator),
}

impl Refusal for DeepError {
    ghost numbered = { deep_number };

    ghost named = { deep_name };

    ghost within = { λ _. Template };

    fn told(&self) -> Told {
        match *self {
            DeepError::Formatter(e) => e.told(),
            DeepError::Separator(s) => s.fault.told(),
        }
    }
}

impl From<ParseError<FormatterError>> for ParseError<DeepError> {
    ghost from_gives = { λ e r. r ≡ of_template e };

    fn from(e: ParseError<FormatterError>) -> ParseError<DeepError> {
        e.with(DeepError::Formatter(e.kind))
    }
}

// The repeat's fault: the separator's own, whole, with place and length as they are there.
impl From<InSeparator> for ParseError<DeepError> {
    ghost from_gives = { λ e r. r ≡ carried e };

    fn from(e: InSeparator) -> ParseError<DeepError> {
        e.fault.with(DeepError::Separator(e))
    }
}
