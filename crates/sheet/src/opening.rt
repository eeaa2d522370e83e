// Opening a sheet: the checks of its layout, then of its places.
ghost use Rattle.std.specs.Prelude.{◌≡◌};
ghost use Rattle.fault.specs.Faults.{checked};
ghost use Rattle.sheet.specs.Layout.{layout_fault, capacity_fault};
ghost use Rattle.mesh.specs.Searches.{first_in};
ghost use Rattle.sheet.specs.Content.{vertices_in, no_place, place_fault, sheet_fault, sheet_fault_within};

use crate::checks::check_layout;
use crate::sheet::Sheet;
use fault::Fault;
use mesh::Room;
use place::Place;
use std::marker::PhantomData;

impl<'a, P: Place> Sheet<'a, P> {
    ghost use Rattle.sheet.specs.Opening.{held_by, opened};

    // The sheet, if its layout is right.
    fn laid_out(bytes: &'a [u8]) -> Result<Sheet<'a, P>, Fault>
        ensures { held_by result ≡ opened (layout_fault P.Place.kind bytes.now) bytes.now }
    {
        let totals = check_layout::<P>(bytes)?;
        Ok(Sheet {
            bytes,
            totals,
            kind: PhantomData,
        })
    }

    // Refuses vertices, then triangles, for which there is no room.
    fn check_room(&self, room: Room) -> Result<(), Fault>
        ensures { result ≡ checked (capacity_fault room.vertices room.triangles self.now.bytes.now) }
    {
        if self.totals.vertices > room.vertices {
            return Err(Fault::VertexCapacity);
        }
        if self.totals.triangles > room.triangles {
            return Err(Fault::TriangleCapacity);
        }
        Ok(())
    }

    // The lowest vertex whose bytes are no place.
    fn first_unplaced(&self) -> Option<u32>
        ensures { result ≡ first_in (no_place P.Place.kind self.now.bytes.now) 0 (vertices_in P.Place.kind self.now.bytes.now) }
    {
        (0..self.totals.vertices).find(|&v| self.place_read(v).is_none())
    }

    // What is found is the refusal, so that no `?` passes it on.
    fn check_places(&self) -> Result<(), Fault>
        ensures { result ≡ checked (place_fault P.Place.kind self.now.bytes.now) }
    {
        if let Some(v) = self.first_unplaced() {
            return Err(Fault::NoPlace(v));
        }
        Ok(())
    }

    // The sheet, if its layout is right and its bytes are places.
    pub fn open(bytes: &'a [u8]) -> Result<Sheet<'a, P>, Fault>
        ensures { held_by result ≡ opened (sheet_fault P.Place.kind bytes.now) bytes.now }
    {
        let sheet = Self::laid_out(bytes)?;
        sheet.check_places()?;
        Ok(sheet)
    }

    // The same for a store with this room, which is checked before the places.
    pub fn open_within(bytes: &'a [u8], room: Room) -> Result<Sheet<'a, P>, Fault>
        ensures { held_by result ≡ opened (sheet_fault_within P.Place.kind room.vertices room.triangles bytes.now) bytes.now }
    {
        let sheet = Self::laid_out(bytes)?;
        sheet.check_room(room)?;
        sheet.check_places()?;
        Ok(sheet)
    }
}
