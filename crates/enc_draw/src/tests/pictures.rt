//! The stored pictures, in parts of which four are the same in each.

/// The end of the description.
pub const MARKED: &str =
    ". A finding that has a place is marked there, by its number where there are at most 500, else by a dot.";

/// The same.
pub const LISTED: &str =
    " Each finding has a row with its number in the list below the picture.</desc>
";

/// How lines, dots and texts are drawn.
pub const STYLE: &str =
    "<style>svg{background:#fff}path{fill:none;stroke-linecap:round;stroke-linejoin:round}
.frame{stroke:#000;stroke-width:8}.edge{stroke:#666;stroke-width:14}.node{stroke:#004a80;stroke-width:56}
.isolated{stroke:#004a80;stroke-width:70;stroke-linecap:square}.sounding{stroke:#3b8fc4;stroke-width:50}
.group1,.coverage{fill-rule:evenodd}.group1{fill:#56b4e9;fill-opacity:.25}.coverage{fill:url(#hatch)}.hatch{stroke:#999;stroke-width:12}
.mark,.spot{stroke:#d55e00;stroke-width:100;stroke-opacity:.45}.spot{stroke-width:80;stroke-opacity:.85}
.lead{stroke:#8a3b00;stroke-width:12}text{font-family:sans-serif;font-size:150px}
.label{font-weight:bold;font-size:190px;text-anchor:middle;dominant-baseline:central;
paint-order:stroke;stroke:#fff;stroke-width:50}.heading{font-size:260px}</style>
<pattern id='hatch' patternUnits='userSpaceOnUse' width='180' height='180'><path class='hatch' d='M 0 180 180 0h0'/></pattern>
";

/// What each sort of line and dot stands for, and the frame.
pub const KEY: &str =
    "<path class='edge' d='M 600 590 850 590h0'/><text transform='translate(950 640)'>edge</text>
<path class='node' d='M 1700 590h0'/><text transform='translate(1800 640)'>connected node</text>
<path class='isolated' d='M 3300 590h0'/><text transform='translate(3400 640)'>isolated node</text>
<path class='sounding' d='M 4750 590h0'/><text transform='translate(4850 640)'>sounding</text>
<path class='group1' d='M 5800 500 6050 500 6050 680 5800 680h0'/><text transform='translate(6150 640)'>Group 1 area</text>
<path class='coverage' d='M 7450 500 7700 500 7700 680 7450 680h0'/><text transform='translate(7800 640)'>coverage</text>
<path class='mark' d='M 8800 590 9050 590h0'/><text transform='translate(9150 640)'>finding, listed by its number</text>
<path class='frame' d='M 600 900 11390 900 11390 11690 600 11690z'/>
";

/// The square of 40,000 units: its sides are those of the frame, which begins at 600 and 900 and is 10,790 wide and high. Its north side
/// (edge 2) is the upper one, its west side (edge 3) the left one.
pub const SQUARE: [&str; 7] = [
    "<svg xmlns='http://www.w3.org/2000/svg' width='1200' height='1269' viewBox='0 0 12000 12690'>
<title>MAKE.000 vi 0 vc 4 ve 4 fe 2 findings 0</title>
<desc>A chart cell and its findings, north up, in integer coordinate units: north 40000 west 0 south 0 east 40000",
    MARKED,
    LISTED,
    STYLE,
    "<text class='heading' transform='translate( 600 330)'>MAKE.000 vi 0 vc 4 ve 4 fe 2 findings 0</text>
",
    KEY,
    "<text class='corner' transform='translate( 600 850)'> north 40000 west 0</text>
<text class='corner' transform='translate( 600 11910)'> south 0 east 40000</text>
<text class='corner' transform='translate( 600 12290)'>Findings. One that has no place in the picture stands in this list alone.</text>
<path class='group1' d='M 600 11690 600 900 600 900 11390 900 11390 900 11390 11690 11390 11690 600 11690h0'><title>rec fe 1</title></path>
<path class='coverage' d='M 600 11690 600 900 600 900 11390 900 11390 900 11390 11690 11390 11690 600 11690h0'><title>rec fe 2</title></path>
<path class='edge' d='M 600 11690 11390 11690h0'><title>rec ve 1</title></path>
<path class='edge' d='M 600 900 11390 900h0'><title>rec ve 2</title></path>
<path class='edge' d='M 600 11690 600 900h0'><title>rec ve 3</title></path>
<path class='edge' d='M 11390 11690 11390 900h0'><title>rec ve 4</title></path>
<path class='node' d='M 600 11690h0'><title>rec vc 1</title></path>
<path class='node' d='M 11390 11690h0'><title>rec vc 2</title></path>
<path class='node' d='M 600 900h0'><title>rec vc 3</title></path>
<path class='node' d='M 11390 900h0'><title>rec vc 4</title></path>
</svg>
",
];

/// The extent is 2^32 - 1 both ways and fills the frame from 600 to 11,390 and from 900 to 11,690. The diagonals meet half way, at
/// (600 + 11,390) / 2 = 5,995 and (900 + 11,690) / 2 = 6,295. That is in row 19 of the fields, of 270 each, and column 13, of 400 each; the row is odd and
/// runs west, so the numbers stand in the middle of columns 12, 11 and 10: 600 + 400 * 12 + 200 = 5,600, then 5,200 and 4,800, and
/// 900 + 270 * 19 + 135 = 6,165 down.
pub const DIAGONALS: [&str; 10] = [
    "<svg xmlns='http://www.w3.org/2000/svg' width='1200' height='1329' viewBox='0 0 12000 13290'>
<title>MAKE.000 vi 0 vc 4 ve 2 fe 0 findings 3</title>
<desc>A chart cell and its findings, north up, in integer coordinate units: north 2147483647 west -2147483648 south -2147483648 east 2147483647",
    MARKED,
    LISTED,
    STYLE,
    "<text class='heading' transform='translate( 600 330)'>MAKE.000 vi 0 vc 4 ve 2 fe 0 findings 3</text>
",
    KEY,
    "<text class='corner' transform='translate( 600 850)'> north 2147483647 west -2147483648</text>
<text class='corner' transform='translate( 600 11910)'> south -2147483648 east 2147483647</text>
<text class='corner' transform='translate( 600 12290)'>Findings. One that has no place in the picture stands in this list alone.</text>
<path class='edge' d='M 600 11690 11390 900h0'><title>rec ve 1</title></path>
<path class='edge' d='M 11390 11690 600 900h0'><title>rec ve 2</title></path>
<path class='node' d='M 600 11690h0'><title>rec vc 1</title></path>
<path class='node' d='M 11390 900h0'><title>rec vc 2</title></path>
<path class='node' d='M 11390 11690h0'><title>rec vc 3</title></path>
<path class='node' d='M 600 900h0'><title>rec vc 4</title></path>
<g><title>side ve 1 Orphan
</title><path class='mark' d='M 600 11690 11390 900h0'/>",
    "<path class='lead' d='M 5995 6295 5600 6165h0'/><text class='label' transform='translate( 5600 6165)'>1</text></g>
<g><title>side ve 2 Orphan
</title><path class='mark' d='M 11390 11690 600 900h0'/>",
    "<path class='lead' d='M 5995 6295 5200 6165h0'/><text class='label' transform='translate( 5200 6165)'>2</text></g>
<g><title>pair ve 1 ve 2 Cross 1 1
</title><path class='mark' d='M 5995 6295h0'/>",
    "<path class='lead' d='M 5995 6295 4800 6165h0'/><text class='label' transform='translate( 4800 6165)'>3</text></g>
<text class='row' transform='translate( 600 12490)'>1 side ve 1 Orphan
</text>
<text class='row' transform='translate( 600 12690)'>2 side ve 2 Orphan
</text>
<text class='row' transform='translate( 600 12890)'>3 pair ve 1 ve 2 Cross 1 1
</text>
</svg>
",
];

/// Without a position the cell is drawn as if around the origin. `name` is that of the data set, as it is to stand in the picture.
pub fn empty_picture(name: &str) -> [&str; 11] {
    [
        "<svg xmlns='http://www.w3.org/2000/svg' width='1200' height='1269' viewBox='0 0 12000 12690'>
<title>",
        name,
        " vi 0 vc 0 ve 0 fe 0 findings 0</title>
<desc>A chart cell and its findings, north up, in integer coordinate units: north 0 west 0 south 0 east 0",
        MARKED,
        LISTED,
        STYLE,
        "<text class='heading' transform='translate( 600 330)'>",
        name,
        " vi 0 vc 0 ve 0 fe 0 findings 0</text>
",
        KEY,
        "<text class='corner' transform='translate( 600 850)'> north 0 west 0</text>
<text class='corner' transform='translate( 600 11910)'> south 0 east 0</text>
<text class='corner' transform='translate( 600 12290)'>Findings. One that has no place in the picture stands in this list alone.</text>
</svg>
",
    ]
}

/// The outer loop goes round the frame. The hole goes from a quarter of it, 10,790 / 4 = 2,697, to three quarters, 8,092, from the left and
/// from the top: 600 + 2,697 = 3,297 and 600 + 8,092 = 8,692, 900 + 2,697 = 3,597 and 900 + 8,092 = 8,992.
pub const HOLE: &str =
    "<path class='coverage' d='M 600 11690 600 900 11390 900 11390 11690 600 11690h0M 3297 8992 8692 8992 8692 3597 3297 3597 3297 8992h0'>";

/// Two nodes, at 0,0 and 10000,10000, and a closed edge at each: from the first node through 40000,0 and 40000,40000 and 0,40000 back, from the second
/// through 10000,30000 and 30000,30000 and 30000,10000 back. An area of coverage has the first edge as exterior and the second as interior boundary.
pub const HOLE_RECORDS: [&[u8]; 10] = [
    b"00067 D     00046   12040001300VRID903SG2D912\x1e\x03\x00\x1ex\x01\x00\x00\x00\x01\x00\x01\x1e\x00\x00\x00\x00\x00\x00\x00\x00\x1e",
    b"00067 D     00046   12040001300VRID903SG2D912\x1e\x04\x00\x1ex\x02\x00\x00\x00\x01\x00\x01\x1e\x10'\x00\x00\x10'\x00\x00\x1e",
    b"00113 D     00057   220400010300VRID0903VRPT1912SG2D2531\x1e\x05\x00\x1e\x82\x01\x00\x00\x00\x01\x00\x01\x1e",
    b"x\x01\x00\x00\x00\xff\xff\x01\xffx\x01\x00\x00\x00\xff\xff\x02\xff\x1e",
    b"@\x9c\x00\x00\x00\x00\x00\x00@\x9c\x00\x00@\x9c\x00\x00\x00\x00\x00\x00@\x9c\x00\x00\x1e",
    b"00113 D     00057   220400010300VRID0903VRPT1912SG2D2531\x1e\x06\x00\x1e\x82\x02\x00\x00\x00\x01\x00\x01\x1e",
    b"x\x02\x00\x00\x00\xff\xff\x01\xffx\x02\x00\x00\x00\xff\xff\x02\xff\x1e",
    b"\x10'\x00\x000u\x00\x000u\x00\x000u\x00\x000u\x00\x00\x10'\x00\x00\x1e",
    b"00112 D     00065   220400010300FRID1303FOID0916ATTF0525FSPT1730\x1e\x07\x00\x1ed\x01\x00\x00\x00\x03\x02.\x01\x01\x00\x01\x1e",
    b"\x01\x00\x01\x00\x00\x00\x01\x00\x1e\x12\x001\x1f\x1e\x82\x01\x00\x00\x00\x01\x01\xff\x82\x02\x00\x00\x00\x01\x02\xff\x1e",
];

/// Records of four nodes in the corners of the plane and of two edges between them, as a file has them behind its head. Those of edges are cut in two.
pub const DIAGONAL_RECORDS: [&[u8]; 8] = [
    b"00067 D     00046   12040001300VRID903SG2D912\x1e\x03\x00\x1ex\x01\x00\x00\x00\x01\x00\x01\x1e\x00\x00\x00\x80\x00\x00\x00\x80\x1e",
    b"00067 D     00046   12040001300VRID903SG2D912\x1e\x04\x00\x1ex\x02\x00\x00\x00\x01\x00\x01\x1e\xff\xff\xff\x7f\xff\xff\xff\x7f\x1e",
    b"00067 D     00046   12040001300VRID903SG2D912\x1e\x05\x00\x1ex\x03\x00\x00\x00\x01\x00\x01\x1e\x00\x00\x00\x80\xff\xff\xff\x7f\x1e",
    b"00067 D     00046   12040001300VRID903SG2D912\x1e\x06\x00\x1ex\x04\x00\x00\x00\x01\x00\x01\x1e\xff\xff\xff\x7f\x00\x00\x00\x80\x1e",
    b"00080 D     00049   220400010300VRID0903VRPT1912\x1e\x07\x00\x1e\x82\x01\x00\x00\x00\x01\x00\x01\x1ex\x01\x00\x00\x00\xff\xff\x01\xff",
    b"x\x02\x00\x00\x00\xff\xff\x02\xff\x1e",
    b"00080 D     00049   220400010300VRID0903VRPT1912\x1e\x08\x00\x1e\x82\x02\x00\x00\x00\x01\x00\x01\x1ex\x03\x00\x00\x00\xff\xff\x01\xff",
    b"x\x04\x00\x00\x00\xff\xff\x02\xff\x1e",
];
