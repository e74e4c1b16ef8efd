use iom_every::Entry;

/// An entry that an IOMMU may hold.
#[derive(Clone, Copy)]
pub struct Kept {
    /// The entry.
    pub entry: Entry,
    /// The number of the newest step that could read it.
    pub number: u64,
    /// The number of the newest step whose command names it, or that made it from an entry that such a command names, if neither a fence came
    /// behind that nor a step that could read it otherwise; None if there is no such step: then a fence that comes now leaves it.
    pub unfenced: Option<u64>,
}
