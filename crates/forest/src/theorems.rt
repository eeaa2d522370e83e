// What is true of every split, each theorem the contract of a function.
ghost use Rattle.forest.specs.Cases.{SplitCases};
ghost use Rattle.forest.specs.Theorems.{LabelsMeant, ForestMeant, ClosingMeant, TreesOrdered, TreesSummed, TreeCounted, RootLowest, NeverEarly, PolygonFilled, PositionsNumbered, CornersRenumbered, SplitKeeps, TwiceAdded, PlacesMoved, FollowsBack, TrianglesFollow};

use place::Place;

// The label of a vertex is the lowest vertex that marked edges lead to.
pub fn labels_meant()
    ensures { LabelsMeant }
{}

// Where no edge closes a loop, the ends of each are joined by no walk over the others.
pub fn forest_meant()
    ensures { ForestMeant }
{}

// The first closing edge is the lowest whose ends are joined by lower marked edges.
pub fn closing_meant()
    ensures { ClosingMeant }
{}

// The trees are listed by their lowest vertices, rising.
pub fn trees_ordered()
    ensures { TreesOrdered }
{}

// Each marked edge is an edge of one tree.
pub fn trees_summed()
    ensures { TreesSummed }
{}

// A tree has one vertex more than edges.
pub fn tree_counted()
    ensures { TreeCounted }
{}

// The root side of a tree leaves its lowest leaf.
pub fn root_lowest()
    ensures { RootLowest }
{}

// No loop of a tree comes round too early.
pub fn never_early()
    ensures { NeverEarly }
{}

// Codes that end with the last of them fill the polygon.
pub fn polygon_filled()
    ensures { PolygonFilled }
{}

// The positions pass each marked edge once in each direction, and no number is given twice.
pub fn positions_numbered()
    ensures { PositionsNumbered }
{}

// A corner on no tree keeps its number, and every other takes that of the position after its run.
pub fn corners_renumbered()
    ensures { CornersRenumbered }
{}

// A split that is accepted keeps a closed mesh closed, with the vertices and triangles that it should have.
pub fn split_keeps()
    ensures { SplitKeeps }
{}

// The first triangle with a side that a lower one has is the first added one that has a side of a kept one.
pub fn twice_added()
    ensures { TwiceAdded }
{}

// The displacements move the places that the vertices had before, and no others; kept vertices keep their parents.
pub fn places_moved<P: Place>()
    ensures { PlacesMoved P.Place.kind }
{}

// A new vertex follows back to where the vertex that it was split from does.
pub fn follows_back()
    ensures { FollowsBack }
{}

// The corners of the old triangles follow back to where they did before the split.
pub fn triangles_follow()
    ensures { TrianglesFollow }
{}

// Worked cases.
pub fn split_cases()
    ensures { SplitCases }
{}
