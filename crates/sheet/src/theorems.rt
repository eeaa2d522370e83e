// What a sheet means.
ghost use Rattle.sheet.specs.Opening.{SheetExact};
ghost use Rattle.sheet.specs.ReadBack.{SheetsReadBack};
ghost use Rattle.sheet.specs.Worked.{WorkedSheets};

use place::Place;

// A sheet has no fault exactly if it is laid out as that of a mesh, and it means that mesh.
pub fn sheet_exact<P: Place>()
    ensures { SheetExact P.Place.kind }
{}

// A sheet that is written reads back as the mesh that it was written from, and different meshes have different sheets.
pub fn sheets_read_back<P: Place>()
    ensures { SheetsReadBack P.Place.kind }
{}

// Worked cases.
pub fn worked_sheets()
    ensures { WorkedSheets }
{}
