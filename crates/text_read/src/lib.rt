// Reading a sheet text into lent buffers.
#![tactic(auto)]

ghost use Rattle.std.specs.Prelude.{◌≡◌, ◌*◌, ◌<◌, ◌≤◌, length};
ghost use Rattle.base_limits.specs.Limits as limits;
ghost use Rattle.surface_rules.specs.Threes.{flat};
ghost use Rattle.text_rules.specs.Workings.Scanning.{Scanned};
ghost use Rattle.text_sheet.specs.Workings.Parse.{parse, Room};
ghost use Rattle.text_read.specs.Outcome.{read_outcome, deliver, Reads};
ghost use Rattle.text_read.specs.Workings.Taking.{Takes};

use base_answers::Refusal;
use base_types::Surface;

// How long a text is that is read with little scratch, and how many words and corners that has.
const SHORT: usize = 256;

const SHORT_WORDS: usize = 32;

const SHORT_CORNERS: usize = 128;

// What a whole text says, by its pitch and its counts of points and triangles.
#[derive(Clone, Copy)]
pub struct Intake {
    pub pitch: u32,
    pub points: usize,
    pub triangles: usize,
}

// What was read: the pitch and the counts of words and corners.
#[derive(Clone, Copy)]
pub struct ReadSheet {
    pub pitch: u32,
    pub words: usize,
    pub corners: usize,
}

// A whole text, its words and corners laid into two buffers from their starts; or the line of its fault. Below a line of a pitch every
// line number goes up by one.
pub fn take_in(text: &[u8], words: &mut [u32], corners: &mut [u16]) -> Result<Intake, usize>
    requires { Room 29 limits.points (length text.now) (length words.old) × Room 8 limits.triangles (length text.now) (length corners.old) }
    ensures { Takes text.now result words.new corners.new words.old corners.old }
{
    let Some((pitch, at)) = text_sheet::head_at(text) else {
        let (points, triangles) = take_body(text, words, corners)?;
        return Ok(Intake {
            pitch: 1,
            points,
            triangles,
        });
    };
    match take_body(&text[at..], words, corners) {
        Ok((points, triangles)) => Ok(Intake {
            pitch,
            points,
            triangles,
        }),
        Err(line) => Err(line + 1),
    }
}

// What stands below the head: the counts of points and triangles, or the line of the fault, counted from there. It is called for a text
// without a head by itself, so that its loops have one number less at hand.
fn take_body(text: &[u8], words: &mut [u32], corners: &mut [u16]) -> Result<(usize, usize), usize>
    requires { Room 29 limits.points (length text.now) (length words.old) × Room 8 limits.triangles (length text.now) (length corners.old) }
    ensures { Scanned flat flat (parse text.now) result words.new corners.new words.old corners.old }
{
    let Some((n, first)) = text_sheet::count_at(text, 0, b"points=", Surface::POINTS) else {
        return Err(1);
    };
    let points = n as usize;
    let middle = match text_sheet::read_points(text, first, points, words) {
        Ok(place) => place,
        Err(i) => return Err(2 + i),
    };
    let Some((t, second)) = text_sheet::count_at(text, middle, b"triangles=", Surface::TRIANGLES)
    else {
        return Err(points + 2);
    };
    let triangles = t as usize;
    let end = match text_sheet::read_triangles(text, second, triangles, corners) {
        Ok(place) => place,
        Err(i) => return Err(points + 3 + i),
    };
    if end < text.len() {
        return Err(points + triangles + 3);
    }
    Ok((points, triangles))
}

// Hands a sheet's words and corners over, where there is room and every corner names a point.
fn hand_over(
    points: usize,
    ws: &[u32],
    cs: &[u16],
    words: &mut [u32],
    corners: &mut [u16],
    pitch: u32,
) -> Result<ReadSheet, Refusal>
    requires { (length ws.now ≡ 3 * points) × (points < 65536) }
    ensures { read_outcome result words.new corners.new
        ≡ deliver pitch ws.now cs.now words.old corners.old }
{
    check_shape::check_buffers(&[words.len(), corners.len()], &[ws.len(), cs.len()])?;
    if let Some(i) = check_shape::first_unnamed(cs, points as u16) {
        return Err(Refusal::Unnamed(i));
    }
    words[..ws.len()].copy_from_slice(ws);
    corners[..cs.len()].copy_from_slice(cs);
    Ok(ReadSheet {
        pitch,
        words: ws.len(),
        corners: cs.len(),
    })
}

// Reads a text by way of scratch for so many words and corners.
fn read_by<const WORDS: usize, const CORNERS: usize>(
    text: &[u8],
    words: &mut [u32],
    corners: &mut [u16],
) -> Result<ReadSheet, Refusal>
    requires room { Room 29 limits.points (length text.now) WORDS × Room 8 limits.triangles (length text.now) CORNERS }
    requires few { (WORDS ≤ limits.words) × (CORNERS ≤ limits.corners) }
    ensures { Reads text.now words.old corners.old (read_outcome result words.new corners.new) }
{
    let mut ws = [0u32; WORDS];
    let mut cs = [0u16; CORNERS];
    let sheet = take_in(text, &mut ws, &mut cs).map_err(Refusal::Line)?;
    let w = 3 * sheet.points;
    let c = 3 * sheet.triangles;
    hand_over(
        sheet.points,
        &ws[..w],
        &cs[..c],
        words,
        corners,
        sheet.pitch,
    )
}

// Reads a sheet text into lent words and corners. Everything past what is read stays, and a refusal changes nothing.
pub fn read(text: &[u8], words: &mut [u32], corners: &mut [u16]) -> Result<ReadSheet, Refusal>
    ensures { Reads text.now words.old corners.old (read_outcome result words.new corners.new) }
{
    if text.len() <= SHORT {
        return read_by::<SHORT_WORDS, SHORT_CORNERS>(text, words, corners);
    }
    read_by::<{ Surface::WORDS }, { Surface::CORNERS }>(text, words, corners)
}
