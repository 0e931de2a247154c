// What turns spread by: lists in which each edge is in two faces, and their tables.
ghost use Rattle.turning.specs.visiting.Visit.{Spreadable};

// The side counts and the corners; the partner of each corner plus one, the face of each corner, and the first corner of each face.
#[derive(Clone, Copy)]
pub(crate) struct Tables<'a> {
    pub sides: &'a [u8],
    pub corners: &'a [u16],
    pub partners: &'a [u16],
    pub faces: &'a [u16],
    pub starts: &'a [u16],
    ghost spreadable: { Spreadable sides.now corners.now partners.now faces.now starts.now },
}
