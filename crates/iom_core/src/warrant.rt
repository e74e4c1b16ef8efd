/// The warrant of a device's access, as numbers of steps: moment k is the state before step k.
#[derive(Clone, Copy, PartialEq)]
pub enum Warrant {
    /// ddtp's mode was Bare: the physical address was the IOVA.
    Register,
    /// Both stages of the device's context were Bare: the physical address was the IOVA. The directory gave that context at moment
    /// `context`.
    Context {
        context: usize,
    },
    /// Page tables led to it: those of moment `walk`, under the context that the directory gave at moment `context`. The context
    /// in force at the access, whose key is the same, is that of moment `current`.
    Walked {
        context: usize,
        walk: usize,
        current: usize,
    },
}
