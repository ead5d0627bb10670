//! Worked examples: what calls in partition 1 answer to the thread that holds it.
ghost use Rattle.std.specs.Prelude.{◌≡◌, ◌++◌, map, pos};
ghost use Rattle.pk_base.specs.Blocks.{tag};
ghost use Rattle.pk_base.specs.declared.call.Call.TheVariants.{Block, Lamina, Prism, Sweep};
ghost use Rattle.pk_base.specs.declared.entity.Class.TheVariants as class;
ghost use Rattle.solid_model.specs.Places.{fins_at, outer_at, point_at};
ghost use Rattle.solid_laws.specs.WorkedCalls.{answers, at};
ghost use Rattle.solid_laws.specs.WorkedTriangle.{triangle, triangle_answers};
ghost use Rattle.solid_laws.specs.WorkedRings.{rings, rings_answers};
ghost use Rattle.solid_laws.specs.WorkedBlocks.{queries, queries_answers, hole, hole_answers};
ghost use Rattle.solid_laws.specs.WorkedPolygons.{limits, limits_answers, largest, largest_answers};
ghost use Rattle.solid_laws.specs.WorkedPolygons.{plate, plate_answers};
ghost use Rattle.solid_laws.specs.BlockForm.{the_block, class_in_body, places, block_vertices, block_points, block_faces, block_lists};
ghost use Rattle.solid_laws.specs.WorkedRoom.{IsMadeOf, after_calls, four, lamina_of_four, lamina_of_three, start, sweep_of_four, sweep_of_three, three};

/// A triangle is made and unmade, with refusals of eleven kinds on the way.
pub fn worked_triangle()
    ensures { answers triangle ≡ triangle_answers }
{}

/// Rings of lone vertices, a hole that is filled and made again, and what is refused of them.
pub fn worked_rings()
    ensures { answers rings ≡ rings_answers }
{}

/// What is asked of a block: loops, entities, parts, counts, an attribute, until it is deleted.
pub fn worked_queries()
    ensures { answers queries ≡ queries_answers }
{}

/// A hole through a block, which is filled again.
pub fn worked_hole()
    ensures { answers hole ≡ hole_answers }
{}

/// Numbers of corners, polygons, points and sizes that are refused, and a point just within.
pub fn worked_limits()
    ensures { answers limits ≡ limits_answers }
{}

/// The prism of the greatest number of corners, which takes tags of 53 blocks.
pub fn worked_largest_prism()
    ensures { answers largest ≡ largest_answers }
{}

/// A prism that is not convex, and the sweep of its upper face.
pub fn worked_plate()
    ensures { answers plate ≡ plate_answers }
{}

/// The closed form of a block: the places of its vertices and faces, the points where its vertices
/// stand, and the lists of its faces' loops.
pub fn worked_block()
    ensures vertices { class_in_body class.Vertex the_block (tag 65) ≡ places block_vertices }
    ensures points { map (point_at the_block) (places block_vertices) ≡ block_points }
    ensures faces { class_in_body class.Face the_block (tag 65) ≡ places block_faces }
    ensures lists { map (λ f. fins_at the_block (outer_at the_block f)) (places block_faces)
        ≡ map places block_lists }
{}

/// The calls of which a lamina, a prism and a sweep are made may put as many tags as the one call,
/// all together, and the same ones: 4n + 6, 13n + 6 and 10n + 1 for n corners.
pub fn worked_room()
    ensures lamina_three { IsMadeOf start (Lamina (pos 0) three) lamina_of_three 18 }
    ensures lamina_four { IsMadeOf start (Lamina (pos 0) four) lamina_of_four 22 }
    ensures sweep_three { IsMadeOf (after_calls lamina_of_three start)
        (Sweep (tag 78) (at 0 0 1)) sweep_of_three 31 }
    ensures sweep_four { IsMadeOf (after_calls lamina_of_four start)
        (Sweep (tag 82) (at 0 0 1)) sweep_of_four 41 }
    ensures prism_three { IsMadeOf start (Prism (pos 0) (pos 1) three)
        (lamina_of_three ++ sweep_of_three) 45 }
    ensures prism_four { IsMadeOf start (Prism (pos 0) (pos 1) four)
        (lamina_of_four ++ sweep_of_four) 58 }
    ensures block { IsMadeOf start (Block (at 0 0 0) (at 1 1 1))
        (lamina_of_four ++ sweep_of_four) 58 }
{}
