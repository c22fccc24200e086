/// How meshes are saved: under which prefix, and with how many decimals.
#[derive(Clone, Copy)]
pub struct Target<'a> {
    pub prefix: &'a str,
    pub decimals: u8,
}
