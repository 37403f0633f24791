use crate::rows::{END, assert_rows};
use std::test::Fail;

/// A function in device form on a grid of two by three, beside another grid. The parts of `%u` have
/// three and two cells.
const HEAD: &str = "module { shard.grid @g(shape = 2x3) shard.grid @h(shape = 2x3) \
func.func @l(%a: tensor<4x6xi32>) -> tensor<4x6xi32> { return %a : tensor<4x6xi32> } \
shardrun.device @f on @g(tensor<4x6xi32> split_axes = [], tensor<4x6xi8> split_axes = [], \
tensor<5xi32> split_axes = [[0]]) -> () \
func.func @f(%m: tensor<4x6xi32>, %n: tensor<4x6xi8>, %u: tensor<?xi32>) { %s = arith.constant 1 : i32";

const ALL_GATHER: &str = "\
%r = shard.all_gather %m on @g grid_axes = [0] gather_axis = 0 : tensor<4x6xi32> -> tensor<8x6xi32> | sound
%r = shard.all_gather %m on @g grid_axes = [1] gather_axis = 1 : tensor<4x6xi32> -> tensor<4x18xi32> | sound
%r = shard.all_gather %m on @g grid_axes = [1, 0] gather_axis = 0 : tensor<4x6xi32> -> tensor<24x6xi32> | sound
%r = shard.all_gather %m on @g gather_axis = 0 : tensor<4x6xi32> -> tensor<4x6xi32> | sound
%r = shard.all_gather %m on @g grid_axes = [0] gather_axis = 0 : tensor<4x6xi32> -> tensor<?x6xi32> | sound
%r = shard.all_gather %u on @g grid_axes = [0] gather_axis = 0 : tensor<?xi32> -> tensor<5xi32> | sound
%r = shard.all_gather %x on @g grid_axes = [0] gather_axis = 0 : tensor<4x6xi32> -> tensor<8x6xi32> | V1 2:1
%m = shard.all_gather %m on @g grid_axes = [0] gather_axis = 0 : tensor<4x6xi32> -> tensor<8x6xi32> | V2 2:1
%r = shard.all_gather %m on @g grid_axes = [0] gather_axis = 0 : tensor<4x?xi32> -> tensor<8x6xi32> | V3 2:1
%r = shard.all_gather %u on @g grid_axes = [0] gather_axis = 0 : tensor<3xi32> -> tensor<6xi32> | V3 2:1
%r = shard.all_gather %m on @g grid_axes = [0] gather_axis = 0 : tensor<4x6xi32> -> tensor<9x6xi32> | V4 2:1
%r = shard.all_gather %m on @g grid_axes = [0] gather_axis = 0 : tensor<4x6xi32> -> tensor<8x7xi32> | V4 2:1
%r = shard.all_gather %m on @g grid_axes = [0] gather_axis = 0 : tensor<4x6xi32> -> tensor<8x6xi8> | V4 2:1
%r = shard.all_gather %m on @g grid_axes = [0] gather_axis = 0 : tensor<4x6xi32> -> tensor<8xi32> | V4 2:1
%r = shard.all_gather %m on @g grid_axes = [0] gather_axis = 2 : tensor<4x6xi32> -> tensor<8x6xi32> | V5 2:1
%r = shard.all_gather %m on @g grid_axes = [2] gather_axis = 0 : tensor<4x6xi32> -> tensor<8x6xi32> | V5 2:1
%r = shard.all_gather %m on @g grid_axes = [-1] gather_axis = 0 : tensor<4x6xi32> -> tensor<8x6xi32> | V5 2:1
%r = shard.all_gather %m on @g grid_axes = [0, 0] gather_axis = 0 : tensor<4x6xi32> -> tensor<16x6xi32> | V5 2:1
%r = shard.all_gather %m on @k grid_axes = [7] gather_axis = 0 : tensor<4x6xi32> -> tensor<8x6xi32> | V6 2:1
%r = shard.all_gather %m on @h grid_axes = [0] gather_axis = 0 : tensor<4x6xi32> -> tensor<8x6xi32> | V10 2:1";

const ALL_SLICE: &str = "\
%r = shard.all_slice %m on @g grid_axes = [0] slice_axis = 0 : tensor<4x6xi32> -> tensor<2x6xi32> | sound
%r = shard.all_slice %m on @g grid_axes = [0, 1] slice_axis = 1 : tensor<4x6xi32> -> tensor<4x1xi32> | sound
%r = shard.all_slice %m on @g grid_axes = [1] slice_axis = 0 : tensor<4x6xi32> -> tensor<?x6xi32> | sound
%r = shard.all_slice %x on @g grid_axes = [0] slice_axis = 0 : tensor<4x6xi32> -> tensor<2x6xi32> | V1 2:1
%m = shard.all_slice %m on @g grid_axes = [0] slice_axis = 0 : tensor<4x6xi32> -> tensor<2x6xi32> | V2 2:1
%r = shard.all_slice %n on @g grid_axes = [0] slice_axis = 0 : tensor<4x6xi32> -> tensor<2x6xi32> | V3 2:1
%r = shard.all_slice %m on @g grid_axes = [1] slice_axis = 0 : tensor<4x6xi32> -> tensor<1x6xi32> | V4 2:1
%r = shard.all_slice %m on @g grid_axes = [0] slice_axis = 0 : tensor<4x6xi32> -> tensor<4x6xi32> | V4 2:1
%r = shard.all_slice %m on @g grid_axes = [0] slice_axis = 2 : tensor<4x6xi32> -> tensor<2x6xi32> | V5 2:1
%r = shard.all_slice %m on @g grid_axes = [2] slice_axis = 0 : tensor<4x6xi32> -> tensor<2x6xi32> | V5 2:1
%r = shard.all_slice %m on @k grid_axes = [0] slice_axis = 0 : tensor<4x6xi32> -> tensor<2x6xi32> | V6 2:1
%r = shard.all_slice %m on @h grid_axes = [0] slice_axis = 0 : tensor<4x6xi32> -> tensor<2x6xi32> | V10 2:1";

const ALL_REDUCE: &str = "\
%r = shard.all_reduce %m on @g grid_axes = [0] : tensor<4x6xi32> -> tensor<4x6xi32> | sound
%r = shard.all_reduce %m on @g grid_axes = [0] reduction = max : tensor<4x6xi32> -> tensor<4x6xi32> | sound
%r = shard.all_reduce %m on @g reduction = <bitwise_xor> : tensor<4x6xi32> -> tensor<?x6xi32> | sound
%r = shard.all_reduce %m on @g grid_axes = [0] reduction = most : tensor<4x6xi32> -> tensor<4x6xi32> | P1 2:60
%r = shard.all_reduce %x on @g grid_axes = [0] : tensor<4x6xi32> -> tensor<4x6xi32> | V1 2:1
%m = shard.all_reduce %m on @g grid_axes = [0] : tensor<4x6xi32> -> tensor<4x6xi32> | V2 2:1
%r = shard.all_reduce %n on @g grid_axes = [0] : tensor<4x6xi32> -> tensor<4x6xi32> | V3 2:1
%r = shard.all_reduce %s on @g grid_axes = [0] : i32 -> i32 | V3 2:1
%r = shard.all_reduce %m on @g grid_axes = [0] : tensor<4x6xi32> -> tensor<4x5xi32> | V4 2:1
%r = shard.all_reduce %m on @g grid_axes = [0] : tensor<4x6xi32> -> tensor<4x6xi64> | V4 2:1
%r = shard.all_reduce %m on @g grid_axes = [0, 2] : tensor<4x6xi32> -> tensor<4x6xi32> | V5 2:1
%r = shard.all_reduce %m on @k : tensor<4x6xi32> -> tensor<4x6xi32> | V6 2:1
%r = shard.all_reduce %m on @h : tensor<4x6xi32> -> tensor<4x6xi32> | V10 2:1";

const REDUCE_SCATTER: &str = "\
%r = shard.reduce_scatter %m on @g grid_axes = [0] scatter_axis = 0 : tensor<4x6xi32> -> tensor<2x6xi32> | sound
%r = shard.reduce_scatter %m on @g grid_axes = [1] reduction = <min> scatter_axis = 1 : tensor<4x6xi32> -> tensor<4x2xi32> | sound
%r = shard.reduce_scatter %m on @g grid_axes = [1] scatter_axis = 0 : tensor<4x6xi32> -> tensor<?x6xi32> | sound
%r = shard.reduce_scatter %x on @g grid_axes = [0] scatter_axis = 0 : tensor<4x6xi32> -> tensor<2x6xi32> | V1 2:1
%m = shard.reduce_scatter %m on @g grid_axes = [0] scatter_axis = 0 : tensor<4x6xi32> -> tensor<2x6xi32> | V2 2:1
%r = shard.reduce_scatter %n on @g grid_axes = [0] scatter_axis = 0 : tensor<4x6xi32> -> tensor<2x6xi32> | V3 2:1
%r = shard.reduce_scatter %m on @g grid_axes = [1] scatter_axis = 0 : tensor<4x6xi32> -> tensor<1x6xi32> | V4 2:1
%r = shard.reduce_scatter %m on @g grid_axes = [0] scatter_axis = 0 : tensor<4x6xi32> -> tensor<2x3xi32> | V4 2:1
%r = shard.reduce_scatter %m on @g grid_axes = [0] scatter_axis = 2 : tensor<4x6xi32> -> tensor<2x6xi32> | V5 2:1
%r = shard.reduce_scatter %m on @g grid_axes = [0, 0] scatter_axis = 0 : tensor<4x6xi32> -> tensor<1x6xi32> | V5 2:1
%r = shard.reduce_scatter %m on @k grid_axes = [0] scatter_axis = 0 : tensor<4x6xi32> -> tensor<2x6xi32> | V6 2:1
%r = shard.reduce_scatter %m on @h grid_axes = [0] scatter_axis = 0 : tensor<4x6xi32> -> tensor<2x6xi32> | V10 2:1";

const ALL_TO_ALL: &str = "\
%r = shard.all_to_all %m on @g grid_axes = [0] split_axis = 0 concat_axis = 1 : tensor<4x6xi32> -> tensor<2x12xi32> | sound
%r = shard.all_to_all %m on @g grid_axes = [1] split_axis = 1 concat_axis = 0 : tensor<4x6xi32> -> tensor<12x2xi32> | sound
%r = shard.all_to_all %m on @g grid_axes = [0] split_axis = 1 concat_axis = 1 : tensor<4x6xi32> -> tensor<4x6xi32> | sound
%r = shard.all_to_all %m on @g grid_axes = [1] split_axis = 0 concat_axis = 1 : tensor<4x6xi32> -> tensor<?x18xi32> | sound
%r = shard.all_to_all %x on @g grid_axes = [0] split_axis = 0 concat_axis = 1 : tensor<4x6xi32> -> tensor<2x12xi32> | V1 2:1
%m = shard.all_to_all %m on @g grid_axes = [0] split_axis = 0 concat_axis = 1 : tensor<4x6xi32> -> tensor<2x12xi32> | V2 2:1
%r = shard.all_to_all %n on @g grid_axes = [0] split_axis = 0 concat_axis = 1 : tensor<4x6xi32> -> tensor<2x12xi32> | V3 2:1
%r = shard.all_to_all %m on @g grid_axes = [0] split_axis = 0 concat_axis = 1 : tensor<4x6xi32> -> tensor<2x6xi32> | V4 2:1
%r = shard.all_to_all %m on @g grid_axes = [0] split_axis = 0 concat_axis = 1 : tensor<4x6xi32> -> tensor<4x12xi32> | V4 2:1
%r = shard.all_to_all %m on @g grid_axes = [1] split_axis = 0 concat_axis = 1 : tensor<4x6xi32> -> tensor<1x18xi32> | V4 2:1
%r = shard.all_to_all %m on @g grid_axes = [0] split_axis = 2 concat_axis = 1 : tensor<4x6xi32> -> tensor<2x12xi32> | V5 2:1
%r = shard.all_to_all %m on @g grid_axes = [0] split_axis = 0 concat_axis = 2 : tensor<4x6xi32> -> tensor<2x12xi32> | V5 2:1
%r = shard.all_to_all %m on @g grid_axes = [5] split_axis = 0 concat_axis = 1 : tensor<4x6xi32> -> tensor<2x12xi32> | V5 2:1
%r = shard.all_to_all %m on @k grid_axes = [0] split_axis = 0 concat_axis = 1 : tensor<4x6xi32> -> tensor<2x12xi32> | V6 2:1
%r = shard.all_to_all %m on @h grid_axes = [0] split_axis = 0 concat_axis = 1 : tensor<4x6xi32> -> tensor<2x12xi32> | V10 2:1";

const SHIFT: &str = "\
%r = shard.shift %m on @g grid_axes = [0] shift_axis = 0 offset = 1 : tensor<4x6xi32> -> tensor<4x6xi32> | sound
%r = shard.shift %m on @g grid_axes = [0, 1] shift_axis = 1 offset = -9 rotate : tensor<4x6xi32> -> tensor<4x6xi32> | sound
%r = shard.shift %u on @g grid_axes = [0] shift_axis = 0 offset = 1 : tensor<?xi32> -> tensor<?xi32> | sound
%r = shard.shift %x on @g grid_axes = [0] shift_axis = 0 offset = 1 : tensor<4x6xi32> -> tensor<4x6xi32> | V1 2:1
%m = shard.shift %m on @g grid_axes = [0] shift_axis = 0 offset = 1 : tensor<4x6xi32> -> tensor<4x6xi32> | V2 2:1
%r = shard.shift %n on @g grid_axes = [0] shift_axis = 0 offset = 1 : tensor<4x6xi32> -> tensor<4x6xi32> | V3 2:1
%r = shard.shift %m on @g grid_axes = [0] shift_axis = 0 offset = 1 : tensor<4x6xi32> -> tensor<6x4xi32> | V4 2:1
%r = shard.shift %m on @g grid_axes = [0] shift_axis = 1 offset = 1 : tensor<4x6xi32> -> tensor<4x6xi32> | V5 2:1
%r = shard.shift %m on @g shift_axis = 0 offset = 1 : tensor<4x6xi32> -> tensor<4x6xi32> | V5 2:1
%r = shard.shift %m on @g grid_axes = [0, 2] shift_axis = 0 offset = 1 : tensor<4x6xi32> -> tensor<4x6xi32> | V5 2:1
%r = shard.shift %m on @k grid_axes = [0] shift_axis = 1 offset = 1 : tensor<4x6xi32> -> tensor<4x6xi32> | V6 2:1
%r = shard.shift %m on @h grid_axes = [0] shift_axis = 0 offset = 1 : tensor<4x6xi32> -> tensor<4x6xi32> | V10 2:1";

const UPDATE_HALO: &str = "\
%r = shard.update_halo %m on @g split_axes = [[0]] halo_sizes = [1, 1] : tensor<4x6xi32> | sound
%r = shard.update_halo %m on @g split_axes = [[0], [1]] halo_sizes = [1, 0, 0, 2] : tensor<4x6xi32> | sound
%r = shard.update_halo %m on @g split_axes = [[], [1, 0]] halo_sizes = [1, 1] : tensor<4x6xi32> | sound
%r = shard.update_halo %m on @g split_axes = [[]] halo_sizes = [] : tensor<4x6xi32> | sound
%r = shard.update_halo %u on @g split_axes = [[0]] halo_sizes = [1, 1] : tensor<?xi32> | sound
%r = shard.update_halo %x on @g split_axes = [[0]] halo_sizes = [1, 1] : tensor<4x6xi32> | V1 2:1
%m = shard.update_halo %m on @g split_axes = [[0]] halo_sizes = [1, 1] : tensor<4x6xi32> | V2 2:1
%r = shard.update_halo %m on @g split_axes = [[0]] halo_sizes = [1, 1] : tensor<4x7xi32> | V3 2:1
%r = shard.update_halo %m on @g split_axes = [[0]] halo_sizes = [1] : tensor<4x6xi32> | V5 2:1
%r = shard.update_halo %m on @g split_axes = [[]] halo_sizes = [0, 0] : tensor<4x6xi32> | V5 2:1
%r = shard.update_halo %m on @g split_axes = [[0]] halo_sizes = [1, -1] : tensor<4x6xi32> | V5 2:1
%r = shard.update_halo %m on @g split_axes = [[0], [], []] halo_sizes = [1, 1] : tensor<4x6xi32> | V5 2:1
%r = shard.update_halo %m on @g split_axes = [[0], [0]] halo_sizes = [1, 1, 1, 1] : tensor<4x6xi32> | V5 2:1
%r = shard.update_halo %m on @g split_axes = [[2]] halo_sizes = [1, 1] : tensor<4x6xi32> | V5 2:1
%r = shard.update_halo %m on @k split_axes = [[2]] halo_sizes = [1, 1] : tensor<4x6xi32> | V6 2:1
%r = shard.update_halo %m on @h split_axes = [[0]] halo_sizes = [1, 1] : tensor<4x6xi32> | V10 2:1";

const TAKE: &str = "\
%r = shardrun.take %m on @g grid_axes = [0] axis = 0 starts = [0, 2] sizes = [2, 2] : tensor<4x6xi32> -> tensor<2x6xi32> | sound
%r = shardrun.take %m on @g axis = 1 starts = [1] sizes = [4] : tensor<4x6xi32> -> tensor<4x4xi32> | sound
%r = shardrun.take %m on @g grid_axes = [0] axis = 0 starts = [0, 3] sizes = [3, 1] : tensor<4x6xi32> -> tensor<?x6xi32> | sound
%r = shardrun.take %m on @g grid_axes = [0] axis = 0 starts = [0, 9] sizes = [2, 2] : tensor<4x6xi32> -> tensor<2x6xi32> | sound
%r = shardrun.take %x on @g grid_axes = [0] axis = 0 starts = [0, 2] sizes = [2, 2] : tensor<4x6xi32> -> tensor<2x6xi32> | V1 2:1
%m = shardrun.take %m on @g grid_axes = [0] axis = 0 starts = [0, 2] sizes = [2, 2] : tensor<4x6xi32> -> tensor<2x6xi32> | V2 2:1
%r = shardrun.take %n on @g grid_axes = [0] axis = 0 starts = [0, 2] sizes = [2, 2] : tensor<4x6xi32> -> tensor<2x6xi32> | V3 2:1
%r = shardrun.take %m on @g grid_axes = [0] axis = 0 starts = [0, 2] sizes = [2, 2] : tensor<4x6xi32> -> tensor<3x6xi32> | V4 2:1
%r = shardrun.take %m on @g grid_axes = [0] axis = 0 starts = [0, 2] sizes = [2, 2] : tensor<4x6xi32> -> tensor<2x5xi32> | V4 2:1
%r = shardrun.take %m on @g grid_axes = [0] axis = 2 starts = [0, 2] sizes = [2, 2] : tensor<4x6xi32> -> tensor<2x6xi32> | V5 2:1
%r = shardrun.take %m on @g grid_axes = [2] axis = 0 starts = [0, 2] sizes = [2, 2] : tensor<4x6xi32> -> tensor<2x6xi32> | V5 2:1
%r = shardrun.take %m on @g grid_axes = [0] axis = 0 starts = [0] sizes = [2, 2] : tensor<4x6xi32> -> tensor<2x6xi32> | V5 2:1
%r = shardrun.take %m on @g grid_axes = [0] axis = 0 starts = [0, 2] sizes = [2] : tensor<4x6xi32> -> tensor<2x6xi32> | V5 2:1
%r = shardrun.take %m on @g grid_axes = [0] axis = 0 starts = [0, -2] sizes = [2, 2] : tensor<4x6xi32> -> tensor<2x6xi32> | V5 2:1
%r = shardrun.take %m on @g grid_axes = [0] axis = 0 starts = [0, 2] sizes = [2, -2] : tensor<4x6xi32> -> tensor<2x6xi32> | V5 2:1
%r = shardrun.take %m on @k grid_axes = [0] axis = 0 starts = [0] sizes = [2] : tensor<4x6xi32> -> tensor<2x6xi32> | V6 2:1
%r = shardrun.take %m on @h grid_axes = [0] axis = 0 starts = [0, 2] sizes = [2, 2] : tensor<4x6xi32> -> tensor<2x6xi32> | V10 2:1";

const PAD: &str = "\
%r = shardrun.pad %m low = [1, 0] high = [1, 2] : tensor<4x6xi32> -> tensor<6x8xi32> | sound
%r = shardrun.pad %u low = [1] high = [1] : tensor<?xi32> -> tensor<5xi32> | sound
%r = shardrun.pad %x low = [1, 0] high = [1, 2] : tensor<4x6xi32> -> tensor<6x8xi32> | V1 2:1
%m = shardrun.pad %m low = [1, 0] high = [1, 2] : tensor<4x6xi32> -> tensor<6x8xi32> | V2 2:1
%r = shardrun.pad %n low = [1, 0] high = [1, 2] : tensor<4x6xi32> -> tensor<6x8xi32> | V3 2:1
%r = shardrun.pad %m low = [1, 0] high = [1, 2] : tensor<4x6xi32> -> tensor<6x9xi32> | V4 2:1
%r = shardrun.pad %m low = [1, 0] high = [1, 2] : tensor<4x6xi32> -> tensor<6x8xi8> | V4 2:1
%r = shardrun.pad %m low = [1] high = [1, 2] : tensor<4x6xi32> -> tensor<6x8xi32> | V5 2:1
%r = shardrun.pad %m low = [1, 0] high = [1, 2, 0] : tensor<4x6xi32> -> tensor<6x8xi32> | V5 2:1
%r = shardrun.pad %m low = [-1, 0] high = [1, 2] : tensor<4x6xi32> -> tensor<4x8xi32> | V5 2:1
%r = shardrun.pad %m low = [1, 0] high = [1, -2] : tensor<4x6xi32> -> tensor<6x4xi32> | V5 2:1";

const JOIN: &str = "\
%r = shardrun.join %m, %m axis = 0 : tensor<4x6xi32>, tensor<4x6xi32> -> tensor<8x6xi32> | sound
%r = shardrun.join %m axis = 1 : tensor<4x6xi32> -> tensor<4x6xi32> | sound
%r = shardrun.join %u, %u axis = 0 : tensor<?xi32>, tensor<?xi32> -> tensor<5xi32> | sound
%r = shardrun.join %m, %x axis = 0 : tensor<4x6xi32>, tensor<4x6xi32> -> tensor<8x6xi32> | V1 2:1
%m = shardrun.join %m, %m axis = 0 : tensor<4x6xi32>, tensor<4x6xi32> -> tensor<8x6xi32> | V2 2:1
%r = shardrun.join %m, %m axis = 0 : tensor<4x6xi32> -> tensor<8x6xi32> | V3 2:1
%r = shardrun.join axis = 0 : -> tensor<8x6xi32> | V3 2:1
%r = shardrun.join %m, %n axis = 0 : tensor<4x6xi32>, tensor<4x6xi8> -> tensor<8x6xi32> | V3 2:1
%r = shardrun.join %m, %u axis = 0 : tensor<4x6xi32>, tensor<?xi32> -> tensor<?x6xi32> | V3 2:1
%e = tensor.empty() : tensor<4x5xi32> %r = shardrun.join %m, %e axis = 0 : tensor<4x6xi32>, tensor<4x5xi32> -> tensor<8x6xi32> | V3 2:39
%e = tensor.empty() : tensor<4x5xi32> %r = shardrun.join %m, %e axis = 1 : tensor<4x6xi32>, tensor<4x5xi32> -> tensor<4x11xi32> | sound
%r = shardrun.join %m, %m axis = 0 : tensor<4x6xi32>, tensor<4x6xi32> -> tensor<9x6xi32> | V4 2:1
%r = shardrun.join %m, %m axis = 0 : tensor<4x6xi32>, tensor<4x6xi32> -> tensor<8x5xi32> | V4 2:1
%r = shardrun.join %m, %m axis = 2 : tensor<4x6xi32>, tensor<4x6xi32> -> tensor<8x6xi32> | V5 2:1";

/// What stands in source form, in device form.
const SOURCE: &str = "\
%r = arith.addi %u, %u : tensor<?xi32> | sound
%r = tensor.empty() : tensor<?xi32> | sound
%r = shard.sharding @g split_axes = [[0]] : !shard.sharding | V10 2:1
%r = shard.sharding @k split_axes = [[0]] : !shard.sharding | V6 2:1
%r = shard.shard %m to %x : tensor<4x6xi32> | V1 2:1
%r = call @l(%m) : (tensor<4x6xi32>) -> tensor<4x6xi32> | V10 2:1
%r = tensor.collapse_shape %u [[0]] : tensor<?xi32> into tensor<7xi32> | sound
%r = tensor.extract_slice %u [9] [2] [1] : tensor<?xi32> to tensor<2xi32> | sound
%r = tensor.extract_slice %u [9] [2] [1] : tensor<?xi32> to tensor<3xi32> | sound
%r = tensor.extract_slice %u [9] [2] [1] : tensor<?xi32> to tensor<3xi8> | V4 2:1
%r = tensor.extract_slice %m [0, 0] [2, 3] [1, 1] : tensor<4x6xi32> to tensor<?x4xi32> | V4 2:1
%r = linalg.dot ins(%u, %u : tensor<?xi32>, tensor<?xi32>) outs(%u : tensor<?xi32>) -> tensor<?xi32> | V3 2:1
%r = arith.constant dense<1> : tensor<?xi32> | sound
%r = arith.constant dense<> : tensor<0x?xi32> | sound
%r = arith.constant dense<\"0x01000000\"> : tensor<?xi32> | sound
%r = arith.constant dense<\"0x0100000001000000\"> : tensor<?xi32> | V5 2:1
%r = arith.constant dense<[1, 2]> : tensor<?xi32> | V5 2:1
%r = arith.constant dense<> : tensor<?xi32> | V5 2:1
%r = arith.extsi %u : tensor<?xi32> to tensor<9xi64> | sound
%r = arith.extsi %u : tensor<?xi32> to tensor<?x1xi64> | V4 2:1
%e = tensor.empty() : tensor<9xi32> %r = arith.addi %u, %e : tensor<?xi32> | V3 2:37
%r = tensor.insert_slice %u into %m [0, 0] [2, 1] [1, 1] : tensor<?xi32> into tensor<4x6xi32> | V3 2:1
%r = tensor.insert_slice %u into %u [0] [2] [1] : tensor<?xi32> into tensor<?xi32> | sound
%e = tensor.empty() : tensor<9xi32> %r = tensor.insert_slice %e into %u [0] [2] [1] : tensor<9xi32> into tensor<?xi32> | sound
%e = tensor.empty() : tensor<9xi32> %r = tensor.insert_slice %u into %e [0] [2] [1] : tensor<?xi32> into tensor<9xi32> | sound
%e = tensor.empty() : tensor<9xi32> %r = tensor.insert_slice %e into %e [0] [2] [1] : tensor<9xi32> into tensor<9xi32> | V3 2:37
%r = tensor.expand_shape %u [[0, 1]] output_shape [2, 4] : tensor<?xi32> into tensor<2x4xi32> | sound
%r = linalg.fill ins(%s : i32) outs(%u : tensor<?xi32>) -> tensor<?xi32> | sound
%r = linalg.fill ins(%s : i32) outs(%u : tensor<?xi32>) -> tensor<9xi32> | sound
%e = tensor.empty() : tensor<i32> %r = linalg.dot ins(%u, %u : tensor<?xi32>, tensor<?xi32>) outs(%e : tensor<i32>) -> tensor<i32> | sound
%e = tensor.empty() : tensor<9xi32> %r = linalg.transpose ins(%u : tensor<?xi32>) outs(%e : tensor<9xi32>) permutation = [0] | sound
%e = tensor.empty() : tensor<9xi32> %r = linalg.conv_1d ins(%u, %e : tensor<?xi32>, tensor<9xi32>) outs(%e : tensor<9xi32>) -> tensor<9xi32> | sound
%e = tensor.empty() : tensor<9xi32> %r = linalg.generic {indexing_maps = [affine_map<(d) -> (d)>, affine_map<(d) -> (d)>], iterator_types = [\"parallel\"]} ins(%u : tensor<?xi32>) outs(%e : tensor<9xi32>) {^b(%x: i32, %o: i32): linalg.yield %x : i32} -> tensor<9xi32> | sound";

#[test]
fn collectives(rt: HostRuntime) -> Result<(), Fail> {
    assert_rows(&rt, rt.alloc(), HEAD, ALL_GATHER, END)?;
    assert_rows(&rt, rt.alloc(), HEAD, ALL_REDUCE, END)?;
    assert_rows(&rt, rt.alloc(), HEAD, REDUCE_SCATTER, END)?;
    assert_rows(&rt, rt.alloc(), HEAD, ALL_TO_ALL, END)
}

#[test]
fn neighbors(rt: HostRuntime) -> Result<(), Fail> {
    assert_rows(&rt, rt.alloc(), HEAD, SHIFT, END)?;
    assert_rows(&rt, rt.alloc(), HEAD, UPDATE_HALO, END)
}

#[test]
fn local_instructions(rt: HostRuntime) -> Result<(), Fail> {
    assert_rows(&rt, rt.alloc(), HEAD, ALL_SLICE, END)?;
    assert_rows(&rt, rt.alloc(), HEAD, TAKE, END)?;
    assert_rows(&rt, rt.alloc(), HEAD, PAD, END)?;
    assert_rows(&rt, rt.alloc(), HEAD, JOIN, END)
}

#[test]
fn operations_of_source_form(rt: HostRuntime) -> Result<(), Fail> {
    assert_rows(&rt, rt.alloc(), HEAD, SOURCE, END)
}
