/// A setting of a row, by its name.
#[derive(Clone, Copy)]
pub enum Setting {
    Turns,
    Words,
    Nums,
    Refs,
    Failing,
    Cut,
    Scope,
}

impl Setting {
    /// The setting of this name.
    pub fn named(name: &[u8]) -> Option<Setting> {
        match name {
            b"turns" => Some(Setting::Turns),
            b"words" => Some(Setting::Words),
            b"nums" => Some(Setting::Nums),
            b"refs" => Some(Setting::Refs),
            b"failing" => Some(Setting::Failing),
            b"cut" => Some(Setting::Cut),
            b"scope" => Some(Setting::Scope),
            _ => None,
        }
    }
}
