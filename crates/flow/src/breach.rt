// What a table can show to be wrong with a program, in the order in which it is told.
#[derive(Clone, Copy, PartialEq, Eq, PartialOrd, Ord, Debug)]
pub enum Breach {
    // a word that runs is not permitted
    NotPermitted,
    // a target or a next address is outside the image
    Outside,
    // a target is an XEC
    Chain,
    // a bank that may be unready is used
    Unready,
    // a write may reach a withheld bit
    Withheld,
}
