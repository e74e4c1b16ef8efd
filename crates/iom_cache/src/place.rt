/// What stands at a place of a cache: of the IOTLB or of the DDTC.
#[derive(Clone, Copy, PartialEq)]
pub enum Place<K, V> {
    /// It is beyond the last place.
    Beyond,
    /// What stood there was dropped.
    Empty,
    /// An entry: its key, and what it says.
    Live(K, V),
}

impl<K: Copy, V: Copy> Place<K, V> {
    ghost use Rattle.std.specs.Prelude.{◌≡◌, option_copied};
    ghost use Rattle.iom_cache.specs.Places.{place_in};

    /// A place of a cache; None is a place beyond the last one.
    pub(crate) fn of(place: Option<&Option<(K, V)>>) -> Place<K, V>
        ensures { result ≡ place_in (option_copied place.entry) }
    {
        match place {
            None => Place::Beyond,
            Some(None) => Place::Empty,
            Some(Some((key, value))) => Place::Live(*key, *value),
        }
    }
}
