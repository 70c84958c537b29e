use obj_layout::vault::VaultFault;

/// Why a call gave no object.
#[derive(Clone, Copy, PartialEq, Eq, Debug)]
pub enum SwizzleFault {
    /// The top and the words of the object, `wanted`, are more than the size of the area.
    AreaFull { top: u32, wanted: u32, size: u32 },
    /// The vault refused the object, or gave words that are none.
    Vault(VaultFault),
}
