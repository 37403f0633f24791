ghost use Rattle.std.specs.Prelude.{◌≡◌, ℕ, ◌+◌, ◌<◌, ◌≤◌, IfOk, drop, length, set, slice_index};
ghost use Rattle.sh_base.specs.Shape.{cell_count, unflat_of};
ghost use Rattle.sh_grid.specs.Grid.{AgreeOutside, AreAxesOf, IsGrid, group_size_of, member_of, place_in};
ghost use Rattle.sh_base.specs.Limits.{max_devices};

use crate::{Grid, extents};
use sh_base::Shape;

/// How far apart the numbers of two devices are that are neighbours along an axis.
fn stride_of(extents: &[u64], axis: u64) -> u64
    requires grid { IsGrid extents.now }
    requires axis { axis < length extents.now }
    ensures value { result ≡ cell_count (drop (axis + 1) extents.now) }
    ensures some { 0 < result }
    ensures few { result ≤ max_devices }
{
    let mut stride = 1;
    for extent in &extents[axis as usize + 1..] {
        stride *= *extent;
    }
    stride
}

/// The coordinate of a device on an axis.
fn coordinate_of(extents: &[u64], axis: u64, device: u64) -> u64
    requires grid { IsGrid extents.now }
    requires axis { axis < length extents.now }
    requires device { device < cell_count extents.now }
    ensures value { result ≡ slice_index (unflat_of extents.now device) axis }
    ensures within { result < slice_index extents.now axis }
{
    device / stride_of(extents, axis) % extents[axis as usize]
}

/// The device with another coordinate on an axis.
fn moved(extents: &[u64], axis: u64, device: u64, coordinate: u64) -> u64
    requires grid { IsGrid extents.now }
    requires axis { axis < length extents.now }
    requires device { device < cell_count extents.now }
    requires coordinate { coordinate < slice_index extents.now axis }
    ensures index { unflat_of extents.now result
        ≡ set (unflat_of extents.now device) axis coordinate }
    ensures within { result < cell_count extents.now }
{
    let stride = stride_of(extents, axis);
    device + coordinate * stride - coordinate_of(extents, axis, device) * stride
}

/// How many devices a group along a list of axes has. The list may be empty; a group is then one
/// device.
pub fn size_along(g: &Grid, axes: &[u64]) -> u64
    requires { AreAxesOf (length g.now.extents) axes.now }
    ensures value { result ≡ group_size_of g.now.extents axes.now }
    ensures some { 0 < result }
    ensures few { result ≤ max_devices }
{
    let extents = extents(g).extents();
    let mut size = 1;
    for axis in axes {
        size *= extents[*axis as usize];
    }
    size
}

/// The same for axes that are held as a shape.
pub fn group_size(g: &Grid, axes: &Shape) -> u64
    requires { AreAxesOf (length g.now.extents) axes.now }
    ensures value { result ≡ group_size_of g.now.extents axes.now }
    ensures some { 0 < result }
    ensures few { result ≤ max_devices }
{
    size_along(g, axes.extents())
}

/// The place of a device in its group along a list of axes, the first listed axis outermost.
pub fn place_in_group(g: &Grid, axes: &Shape, device: u64) -> u64
    requires axes { AreAxesOf (length g.now.extents) axes.now }
    requires device { device < cell_count g.now.extents }
    ensures value { result ≡ place_in g.now.extents axes.now device }
    ensures below { result < group_size_of g.now.extents axes.now }
    // From each device of the group, the member at this place is the device.
    ensures member { (c : ℕ) → AgreeOutside g.now.extents axes.now c device
        → member_of g.now.extents axes.now c result ≡ device }
{
    let extents = extents(g).extents();
    let mut place = 0;
    for axis in axes.extents() {
        place = place * extents[*axis as usize] + coordinate_of(extents, *axis, device);
    }
    place
}

/// The device at a place in the group of a device along a list of axes.
pub fn member(g: &Grid, axes: &Shape, device: u64, place: u64) -> u64
    requires axes { AreAxesOf (length g.now.extents) axes.now }
    requires device { device < cell_count g.now.extents }
    requires place { place < group_size_of g.now.extents axes.now }
    ensures value { result ≡ member_of g.now.extents axes.now device place }
    ensures within { result < cell_count g.now.extents }
    ensures group { AgreeOutside g.now.extents axes.now device result }
    ensures place { place_in g.now.extents axes.now result ≡ place }
{
    let extents = extents(g).extents();
    let mut size = group_size(g, axes);
    let mut rest = place;
    let mut found = device;
    for axis in axes.extents() {
        size /= extents[*axis as usize];
        found = moved(extents, *axis, found, rest / size);
        rest %= size;
    }
    found
}

#[cfg(test)]
mod tests {
    use crate::{Grid, coords, devices, group_size, make, member, name, place_in_group};
    use sh_base::{Duplicate, Items, Same, shape};
    use std::alloc::Global;
    use std::test::Fail;

    fn grid(alloc: Global, extents: &[u64]) -> Result<Grid, Fail>
        requires { length extents.now ≤ 6 }
        ensures { IfOk result (λ g. g.extents ≡ extents.now) }
    {
        let name = Items::from_vec(b"grid".to_vec(alloc)?);
        let made = make(name, shape(alloc, extents)).ok_or("no grid of these extents")?;
        Ok(made)
    }

    // The devices of a group by rising place, as long as each has the place that it was met at.
    fn group(alloc: Global, extents: &[u64], axes: &[u64], device: u64) -> Result<Vec<u64>, Fail>
        requires few { length extents.now ≤ 6 }
        requires listed { length axes.now ≤ 6 }
        requires axes { AreAxesOf (length extents.now) axes.now }
        requires device { device < cell_count extents.now }
    {
        let grid = grid(alloc, extents)?;
        let axes = shape(alloc, axes);
        let mut found = Vec::new(alloc);
        for place in 0..group_size(&grid, &axes) {
            let met = member(&grid, &axes, device, place);
            if place_in_group(&grid, &axes, met) == place {
                found.push(met)?;
            }
        }
        Ok(found)
    }

    #[test]
    fn the_first_listed_axis_is_outermost(rt: HostRuntime) -> Result<(), Fail> {
        let alloc = rt.alloc();
        // The places of (0, 1) and (1, 0) are 2 and 1.
        assert_eq!(rt;
            group(alloc, &[2, 2], &[1, 0], 3)?.as_slice(),
            [0, 2, 1, 3].as_slice()
        );
        assert_eq!(rt;
            group(alloc, &[2, 2], &[0, 1], 3)?.as_slice(),
            [0, 1, 2, 3].as_slice()
        );
        Ok(())
    }

    #[test]
    fn groups_along_some_axes(rt: HostRuntime) -> Result<(), Fail> {
        let alloc = rt.alloc();
        let outer = group(alloc, &[2, 3, 4], &[2, 0], 17)?;
        assert_eq!(rt; outer.as_slice(), [4, 16, 5, 17, 6, 18, 7, 19].as_slice());
        let pair = group(alloc, &[2, 1, 3, 2], &[3, 1], 9)?;
        assert_eq!(rt; pair.as_slice(), [8, 9].as_slice());
        Ok(())
    }

    #[test]
    fn small_groups(rt: HostRuntime) -> Result<(), Fail> {
        let alloc = rt.alloc();
        assert_eq!(rt;
            group(alloc, &[2, 1, 3, 2], &[], 9)?.as_slice(),
            [9].as_slice()
        );
        assert_eq!(rt;
            group(alloc, &[2, 1, 3, 2], &[1], 9)?.as_slice(),
            [9].as_slice()
        );
        Ok(())
    }

    #[test]
    fn a_grid_and_its_coordinates(rt: HostRuntime) -> Result<(), Fail> {
        let alloc = rt.alloc();
        let cube = grid(alloc, &[2, 3, 4])?;
        assert_eq!(rt; name(&cube).as_slice(), b"grid".as_slice());
        assert_eq!(rt; devices(&cube), 24);
        assert_eq!(rt; coords(alloc, &cube, 23).extents(), [1, 2, 3].as_slice());
        assert_eq!(rt; coords(alloc, &cube, 6).extents(), [0, 1, 2].as_slice());
        Ok(())
    }

    #[test]
    fn a_copy_is_the_same_grid(rt: HostRuntime) -> Result<(), Fail> {
        let alloc = rt.alloc();
        let cube = grid(alloc, &[2, 3, 4])?;
        let other = grid(alloc, &[2, 3, 3])?;
        let copied = cube.duplicate(alloc)?;
        assert!(rt; copied.same(&cube));
        assert!(rt; !copied.same(&other));
        Ok(())
    }

    #[test]
    fn grids_have_limits(rt: HostRuntime) {
        let alloc = rt.alloc();
        let cases: [(&[u64], bool); 8] = [
            (&[], false),
            (&[1], true),
            (&[1024], true),
            (&[1025], false),
            (&[41, 25], false),
            (&[4, 8, 8, 4], true),
            (&[1, 1, 1, 1, 1], false),
            (&[3, 0], false),
        ];
        for (extents, want) in cases {
            assert!(rt; extents.len() <= 6);
            let made = make(Items::new(alloc), shape(alloc, extents));
            assert_eq!(rt; made.is_some(), want, "at {extents:?}");
        }
    }
}
