// Table D.1 of source document 002: the lines of the example gas, a component a row, with M, H, s, x M, x H and x s. A figure stands as its
// digits, without the decimal sign.
// Rows end to end: `Part` counts figures through, and would flatten an array of rows at each look-up.
pub const FIGURES: [u32; 48] = [
    16043, 89156, 447, 148350, 82443, 4133, // 1 methane
    30070, 156214, 922, 10525, 5467, 323, // 2 ethane
    44097, 222110, 1338, 4322, 2177, 131, // 3 propane
    58123, 287976, 1871, 1279, 634, 41, // 4 n-butane
    58123, 287058, 1789, 1976, 976, 61, // 5 2-methylpropane
    72150, 353860, 2510, 433, 212, 15, // 6 n-pentane
    280135, 0, 173, 4902, 0, 30, // 52 nitrogen
    44010, 0, 748, 2993, 0, 51, // 54 carbon dioxide
];
