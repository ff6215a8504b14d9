//! Which program this is.

/// What `desk --version` says after the program's name: its version, its licence, the logic that it was proved with (`rt version`
/// names the logic of a toolchain), and the hash of the sources that it was built from.
pub const VERSION: &str = concat!(
    "0.37.0\n",
    "licence MIT OR Apache-2.0\n",
    "proved with Rattle, logic dac8208d650f15bf\n",
    "sources 8d94893ee914a71eaf1bbb7b280ec7154375ca57b896053df9ef39343abde630",
);
