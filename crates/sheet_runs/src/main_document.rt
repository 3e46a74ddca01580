use sample_maker::Sample;

/// Where the main document comes from.
#[derive(Drop)]
pub enum Main {
    /// From the host.
    Host,
    /// It is what is left of a sample.
    Sample(Sample),
}
