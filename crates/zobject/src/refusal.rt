/// Why bytes aren't read as an object.
#[derive(Clone, Copy, Debug, PartialEq, Eq)]
pub enum CodecRefusal {
    /// There wasn't memory enough; nothing is said of the bytes.
    Memory,
    /// No object has this record. The place, in bytes from its start, is where the first field starts that fits no
    /// rule, or the end of the object where bytes are left over.
    BadRecord(usize),
}
