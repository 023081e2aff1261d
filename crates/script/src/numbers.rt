/// The numbers of a record or a line, by how many digits each has. The eight are hexadecimal.
#[derive(Clone, Copy)]
pub struct Numbers {
    pub two: u32,
    pub three: u32,
    pub eight: u32,
}

impl Numbers {
    pub const ZERO: Numbers = Numbers {
        two: 0,
        three: 0,
        eight: 0,
    };
}
