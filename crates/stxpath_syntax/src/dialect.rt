/// The versions of the path language, by the version of the sheet in which a text stands.
#[derive(Clone, Copy, Debug, PartialEq, Eq)]
pub enum Dialect {
    /// That of sheets of version 1.0.
    One,
    /// That of sheets of version 1.1, which has the node test `cdata()` besides.
    OneOne,
}
