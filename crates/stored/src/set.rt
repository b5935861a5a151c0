// The set as it is handed on above the check: what every query reads travels together.

// The two files, the depths of the junctions, and the tables that are filled once per call. That the check accepted the files stays a
// clause of the functions: it is no proposition, and so no ghost field.
#[derive(Clone, Copy)]
pub struct LabelSet<'a> {
    pub net: &'a [u8],
    pub labels: &'a [u8],
    pub depths: &'a [u32; 1024],
    pub tables: &'a [u32; 13312],
}
