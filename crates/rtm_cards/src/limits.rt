//! The limits of an input and of the deck that it spells (this profile).

/// How many bytes an input has at most.
pub const MOST_BYTES: usize = 16_777_216;

/// How many cards an input has at most, comments and blank ones among them.
pub const MOST_CARDS: u32 = 10_000;

/// How many bytes a card has at most, its line feed left out.
pub const MOST_CARD_BYTES: usize = 80;

/// How many programs a deck has at most.
pub const MOST_PROGRAMS: usize = 256;

/// How many units of work a deck has at most.
pub const MOST_UNITS: usize = 64;

/// How many commands a deck has at most.
pub const MOST_COMMANDS: u32 = 64;

/// How many entries a deck may ask for at most.
pub const MOST_ENTRIES: u32 = 100_000;

/// How many entries a history may have where the deck doesn't say.
pub const DEFAULT_ENTRIES: u32 = 20_000;
