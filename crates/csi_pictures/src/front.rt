//! What stands at the front of a picture.

use std::alloc::AllocError;

// How each class of lines and texts is drawn. No two ways differ in colour alone.
const STYLE: &str =
    "<style>text{font:39px sans-serif;fill:#222}.t{font-size:56px;font-weight:bold}.h{font-weight:bold;text-anchor:middle}.o{fill:#666;font-size:36px}.wrong{fill:#b34700;font-weight:bold}.odd{fill:#7a3e66;font-style:italic}.label,.bad{font-size:36px;stroke:#fff;stroke-width:9px;paint-order:stroke}.bad{fill:#b34700}.b{text-anchor:end}path{fill:none}.lane{stroke:#eee;stroke-width:90px}.attached,.staged{stroke-width:16px}.attached{stroke:#e69f00}.staged{stroke:#56b4e9}.published{stroke:#004c80;stroke-width:9px}.taken,.lost{stroke:#333;stroke-width:5px}.taken{marker-end:url(#head)}.refused{stroke:#d55e00;stroke-width:9px;marker-end:url(#stop)}.ignored{stroke:#aa4488;stroke-width:5px;stroke-dasharray:22 14;marker-end:url(#ring)}.lost{stroke-dasharray:8 10;marker-end:url(#open)}</style>\n";

// The shapes that are drawn again and again.
const SHAPES: &str =
    "<defs><marker id='head' viewBox='0 0 10 10' refX='10' refY='5' markerUnits='userSpaceOnUse' markerWidth='36' markerHeight='36' orient='auto'><path d='M0 1 10 5 0 9z' style='fill:#333'/></marker><marker id='stop' viewBox='-7 -7 14 14' markerUnits='userSpaceOnUse' markerWidth='50' markerHeight='50'><path d='M-5-5 5 5M-5 5 5-5' stroke='#d55e00' stroke-width='3'/></marker><marker id='ring' viewBox='-6 -6 12 12' markerUnits='userSpaceOnUse' markerWidth='44' markerHeight='44'><circle r='4' fill='#fff' stroke='#aa4488' stroke-width='2'/></marker><marker id='open' viewBox='-5 -5 10 10' markerUnits='userSpaceOnUse' markerWidth='36' markerHeight='36'><circle r='3' fill='#fff' stroke='#333'/></marker><circle id='command' r='21' fill='#333'/><path id='cross' d='M-21-21 21 21M-21 21 21-21' stroke='#d55e00' stroke-width='14'/><path id='clock' d='M-25-25H25L-25 25H25z' style='fill:#fff' stroke='#333' stroke-width='7'/><path id='restart' d='M-45-10h90M-45 10h90' stroke='#333' stroke-width='10'/></defs>\n";

// What the colours and shapes mean.
const LEGEND: &str =
    "<path class='attached' d='M800-110h60'/><text x='880' y='-97'>attached</text><path class='staged' d='M1230-110h60'/><text x='1310' y='-97'>staged</text><path class='published' d='M1660-110h60'/><text x='1740' y='-97'>published</text><path class='taken' d='M800-48h60'/><text x='890' y='-35'>carried out, taken</text><path class='refused' d='M1290-48h60'/><text x='1390' y='-35'>refused, stale</text><path class='ignored' d='M1720-48h60'/><text x='1815' y='-35'>ignored</text><path class='lost' d='M2060-48h60'/><text x='2155' y='-35'>not delivered</text>\n";

/// Appends the size of a picture whose last lane and lowest row are these, its style, its title and what its shapes mean.
pub fn put_front(
    out: &mut String,
    last: usize,
    lowest: usize,
    events: usize,
    frames: u64,
    is_safe: bool,
) -> Result<(), AllocError> {
    let found = if is_safe { "nothing" } else { "something" };
    write!(
        out,
        "<svg xmlns='http://www.w3.org/2000/svg' font-size='28' width='{last}6em' height='{lowest}em' viewBox='0 -160 {last}600 {lowest}00'>\n"
    )?;
    out.push_str(STYLE)?;
    out.push_str(SHAPES)?;
    write!(
        out,
        "<text class='t' x='30' y='-90'>{events} events, {frames} frames</text>\n<text x='30' y='-35'>Audit: {found} wrong</text>\n"
    )?;
    out.push_str(LEGEND)
}
